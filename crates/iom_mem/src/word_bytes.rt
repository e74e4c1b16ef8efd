ghost use Rattle.std.specs.Prelude.{◌≡◌, ◌+◌, ◌-◌, ◌*◌, ◌/◌, ◌%◌, ◌^◌, ◌<◌, ◌≤◌, ℕ, length, get_or, take, drop};
ghost use Rattle.std.proofs.Math.Seq.{paste};
ghost use Rattle.iom_bits.specs.Bytes.{number_of_bytes, bytes_of_number};
ghost use Rattle.iom_mem.specs.Words.{bytes_of_words, AreWords, StartsWith};

use iom_bits::{le_u64, with_field};

// The places of bytes count from the first byte of the first word.

/// All the words.
pub fn all_words(words: &[u64]) -> &[u64]
    ensures all { result.now ≡ words.now }
    ensures read { AreWords result.now (bytes_of_words words.now) 0 (length words.now) }
{
    words
}

// The eight bytes from place `at` on, as a number.
fn word_at(words: &[u64], at: usize) -> u64
    requires { at + 8 ≤ 8 * length words.now }
    ensures bytes { bytes_of_number 8 result ≡ take 8 (drop at (bytes_of_words words.now)) }
    ensures value { result ≡ number_of_bytes (take 8 (drop at (bytes_of_words words.now))) }
{
    word_from(words, at / 8, at % 8)
}

/// The eight bytes that begin `skipped` bytes, 0 to 7, into word `first`, as a number, the lowest byte first.
pub fn word_from(words: &[u64], first: usize, skipped: usize) -> u64
    requires part { skipped < 8 }
    requires within { 8 * first + skipped + 8 ≤ 8 * length words.now }
    ensures bytes { bytes_of_number 8 result ≡ take 8 (drop (8 * first + skipped) (bytes_of_words words.now)) }
    ensures value { result ≡ number_of_bytes (take 8 (drop (8 * first + skipped) (bytes_of_words words.now))) }
{
    if skipped == 0 {
        words[first]
    } else {
        joined(words[first], words[first + 1], skipped)
    }
}

// Fewer than eight bytes from place `at` on, as the low bytes of a number.
fn few_at(words: &[u64], at: usize, count: usize) -> u64
    requires few { count < 8 }
    requires within { at + count ≤ 8 * length words.now }
    requires some { 1 ≤ count }
    ensures { bytes_of_number count result ≡ take count (drop at (bytes_of_words words.now)) }
{
    if at % 8 + count <= 8 {
        words[at / 8] >> (8 * (at % 8))
    } else {
        joined(words[at / 8], words[at / 8 + 1], at % 8)
    }
}

// The eight bytes that begin `skipped` bytes into two words.
fn joined(first: u64, second: u64, skipped: usize) -> u64
    requires some { 1 ≤ skipped }
    requires few { skipped < 8 }
    ensures value { result
        ≡ second % 2 ^ (8 * skipped) * 2 ^ (8 * (8 - skipped)) + first / 2 ^ (8 * skipped) }
    ensures low { first / 2 ^ (8 * skipped) < 2 ^ (8 * (8 - skipped)) }
{
    (second << (8 * (8 - skipped))) | (first >> (8 * skipped))
}

/// Fills `out` with the words of 8 bytes from place `at` on, of any alignment.
pub fn read_words(words: &[u64], at: usize, out: &mut [u64])
    requires { at + 8 * length out.old ≤ 8 * length words.now }
    ensures read { AreWords out.new (bytes_of_words words.now) at (length out.old) }
    ensures length { length out.new ≡ length out.old }
{
    for i in 0..out.len() {
        out[i] = word_at(words, at + 8 * i);
    }
}

/// Fills `out` with the bytes from place `at` on.
pub fn read_bytes(words: &[u64], at: usize, out: &mut [u8])
    requires { at + length out.old ≤ 8 * length words.now }
    ensures { out.new ≡ take (length out.old) (drop at (bytes_of_words words.now)) }
{
    let len = out.len();
    if len >= 8 {
        read_from(&words[at / 8..], at % 8, out);
    } else if len > 0 {
        put_few(out, few_at(words, at, len));
    }
}

// Fills `out`, eight bytes or more, from place `at` on, which is in the first word.
fn read_from(words: &[u64], at: usize, out: &mut [u8])
    requires within { at + length out.old ≤ 8 * length words.now }
    requires some { 8 ≤ length out.old }
    ensures { out.new ≡ take (length out.old) (drop at (bytes_of_words words.now)) }
{
    let len = out.len();
    if len > 72 {
        read_many(words, at, out);
    } else if len > 16 {
        read_some(words, at, out);
    } else {
        put_word(out, 0, word_at(words, at));
        put_word(out, len - 8, word_at(words, at + (len - 8)));
    }
}

// Fills `out`, from 17 to 72 bytes: the last word and the first one shifted, and then the words
// between them as they stand, over what is not theirs.
fn read_some(words: &[u64], at: usize, out: &mut [u8])
    requires within { at + length out.old ≤ 8 * length words.now }
    requires some { 16 < length out.old }
    requires few { length out.old ≤ 72 }
    ensures { out.new ≡ take (length out.old) (drop at (bytes_of_words words.now)) }
{
    let last = at + out.len() - 1;
    put_ends(words, at, out);
    put_words(out, 8 - at % 8, &words[at / 8 + 1..last / 8]);
}

// Fills `out`, more than 72 bytes. A function of its own keeps the code for fewer short.
#[inline(never)]
fn read_many(words: &[u64], at: usize, out: &mut [u8])
    requires within { at + length out.old ≤ 8 * length words.now }
    requires many { 72 < length out.old }
    ensures { out.new ≡ take (length out.old) (drop at (bytes_of_words words.now)) }
{
    let last = at + out.len() - 1;
    put_ends(words, at, out);
    put_row(out, 8 - at % 8, &words[at / 8 + 1..last / 8]);
}

// The word with the last byte, and the one with the first: each shifted to its end of `out`.
fn put_ends(words: &[u64], at: usize, out: &mut [u8])
    requires within { at + length out.old ≤ 8 * length words.now }
    requires many { 16 < length out.old }
    ensures { out.new ≡ paste (paste out.old (length out.old - 8)
        (bytes_of_number 8 (get_or words.now ((at + length out.old - 1) / 8) 0 * 2 ^ (8 * (7 - (at + length out.old - 1) % 8)) % 2 ^ 64)) 8)
        0 (bytes_of_number 8 (get_or words.now (at / 8) 0 / 2 ^ (8 * (at % 8)))) 8 }
{
    let len = out.len();
    let last = at + len - 1;
    put_word(out, len - 8, words[last / 8] << (8 * (7 - last % 8)));
    put_word(out, 0, words[at / 8] >> (8 * (at % 8)));
}

// Replaces the bytes of `out` from `to` on by those of at most eight words; the last step overlaps the
// first.
fn put_words(out: &mut [u8], to: usize, words: &[u64])
    requires room { to + 8 * length words.now ≤ length out.old }
    requires few { length words.now ≤ 8 }
    ensures { out.new ≡ paste out.old to (bytes_of_words words.now) (8 * length words.now) }
{
    let count = words.len();
    if count >= 4 {
        put_four(out, to, words, 0);
        put_four(out, to, words, count - 4);
    } else if count >= 2 {
        put_two(out, to, words, 0);
        put_two(out, to, words, count - 2);
    } else if count == 1 {
        put_word(out, to, words[0]);
    }
}

// Replaces the bytes of `out` from `to` on by those of two or more words.
fn put_row(out: &mut [u8], to: usize, words: &[u64])
    requires room { to + 8 * length words.now ≤ length out.old }
    requires some { 2 ≤ length words.now }
    ensures { out.new ≡ paste out.old to (bytes_of_words words.now) (8 * length words.now) }
{
    put_pairs(out, to, words);
    put_two(out, to, words, words.len() - 2);
}

// The words two at a time; one that is left over is not put.
fn put_pairs(out: &mut [u8], to: usize, words: &[u64])
    requires { to + 8 * length words.now ≤ length out.old }
    ensures { out.new ≡ paste out.old to (bytes_of_words words.now) (16 * (length words.now / 2)) }
{
    for i in 0..words.len() / 2 {
        put_two(out, to, words, 2 * i);
    }
}

// Four words, from `first` on.
fn put_four(out: &mut [u8], to: usize, words: &[u64], first: usize)
    requires there { first + 4 ≤ length words.now }
    requires room { to + 8 * length words.now ≤ length out.old }
    ensures { out.new ≡ paste out.old (to + 8 * first) (take 32 (drop (8 * first) (bytes_of_words words.now))) 32 }
{
    put_two(out, to, words, first);
    put_two(out, to, words, first + 2);
}

// Two words, from `first` on.
fn put_two(out: &mut [u8], to: usize, words: &[u64], first: usize)
    requires there { first + 2 ≤ length words.now }
    requires room { to + 8 * length words.now ≤ length out.old }
    ensures { out.new ≡ paste out.old (to + 8 * first) (take 16 (drop (8 * first) (bytes_of_words words.now))) 16 }
{
    let low = words[first];
    let high = words[first + 1];
    put_word(out, to + 8 * first, low);
    put_word(out, to + 8 * first + 8, high);
}

// Replaces eight bytes of `out` by those of a word.
fn put_word(out: &mut [u8], at: usize, word: u64)
    requires { at + 8 ≤ length out.old }
    ensures { out.new ≡ paste out.old at (bytes_of_number 8 word) 8 }
{
    out[at..at + 8].copy_from_slice(&word.to_le_bytes());
}

// Replaces all of `out` by the lowest bytes of a number. Tests in the place of a `match`, whose table of
// places to jump to costs more than the bytes.
fn put_few(out: &mut [u8], number: u64)
    requires some { 1 ≤ length out.old }
    requires few { length out.old < 8 }
    ensures { out.new ≡ bytes_of_number (length out.old) number }
{
    let [a, b, c, d, e, f, g, _] = number.to_le_bytes();
    let count = out.len();
    if count < 4 {
        if count == 1 {
            out.copy_from_slice(&[a]);
        } else if count < 3 {
            out.copy_from_slice(&[a, b]);
        } else {
            out.copy_from_slice(&[a, b, c]);
        }
    } else if count < 6 {
        if count < 5 {
            out.copy_from_slice(&[a, b, c, d]);
        } else {
            out.copy_from_slice(&[a, b, c, d, e]);
        }
    } else if count < 7 {
        out.copy_from_slice(&[a, b, c, d, e, f]);
    } else {
        out.copy_from_slice(&[a, b, c, d, e, f, g]);
    }
}

/// Replaces the bytes from place `at` on by `bytes`.
pub fn write_bytes(words: &mut [u64], at: usize, bytes: &[u8])
    requires { at + length bytes.now ≤ 8 * length words.old }
    ensures bytes { bytes_of_words words.new ≡ paste (bytes_of_words words.old) at bytes.now (length bytes.now) }
    ensures size { length words.new ≡ length words.old }
{
    write_from(&mut words[at / 8..], at % 8, bytes);
}

// Bytes that begin in the first word, behind `kept` bytes of it.
fn write_from(words: &mut [u64], kept: usize, bytes: &[u8])
    requires part { kept < 8 }
    requires within { kept + length bytes.now ≤ 8 * length words.old }
    ensures bytes { bytes_of_words words.new ≡ paste (bytes_of_words words.old) kept bytes.now (length bytes.now) }
    ensures size { length words.new ≡ length words.old }
{
    if bytes.len() > 72 {
        write_many(words, kept, bytes);
    } else if bytes.len() >= 8 {
        write_some(words, kept, bytes);
    } else if !bytes.is_empty() {
        write_few(words, kept, bytes);
    }
}

// Fewer than eight bytes, which stand in one word or in two.
fn write_few(words: &mut [u64], kept: usize, bytes: &[u8])
    requires part { kept < 8 }
    requires within { kept + length bytes.now ≤ 8 * length words.old }
    requires some { 1 ≤ length bytes.now }
    requires few { length bytes.now < 8 }
    ensures bytes { bytes_of_words words.new ≡ paste (bytes_of_words words.old) kept bytes.now (length bytes.now) }
    ensures size { length words.new ≡ length words.old }
{
    let number = number(bytes);
    let end = kept + bytes.len();
    if end > 8 {
        words[0] = above(words[0], number, kept);
        words[1] = below(words[1], number >> (8 * (8 - kept)), end - 8);
    } else {
        let low = 8 * kept as u32;
        let width = 8 * bytes.len() as u32;
        words[0] = with_field(words[0], low, width, number);
    }
}

// From 8 to 72 bytes, straight on with no loop.
fn write_some(words: &mut [u64], kept: usize, bytes: &[u8])
    requires part { kept < 8 }
    requires within { kept + length bytes.now ≤ 8 * length words.old }
    requires some { 8 ≤ length bytes.now }
    requires few { length bytes.now ≤ 72 }
    ensures bytes { bytes_of_words words.new ≡ paste (bytes_of_words words.old) kept bytes.now (length bytes.now) }
    ensures size { length words.new ≡ length words.old }
{
    let rest = &bytes[8 - kept..];
    write_start(words, kept, bytes);
    write_whole(words, 1, rest);
    write_end(words, rest.len(), bytes);
}

// More than 72 bytes. A function of its own keeps the code for fewer short.
#[inline(never)]
fn write_many(words: &mut [u64], kept: usize, bytes: &[u8])
    requires part { kept < 8 }
    requires within { kept + length bytes.now ≤ 8 * length words.old }
    requires many { 72 < length bytes.now }
    ensures bytes { bytes_of_words words.new ≡ paste (bytes_of_words words.old) kept bytes.now (length bytes.now) }
    ensures size { length words.new ≡ length words.old }
{
    let rest = &bytes[8 - kept..];
    write_start(words, kept, bytes);
    write_row(words, 1, rest);
    write_end(words, rest.len(), bytes);
}

// The first of the bytes, up to the end of the first word.
fn write_start(words: &mut [u64], kept: usize, bytes: &[u8])
    requires part { kept < 8 }
    requires within { kept + length bytes.now ≤ 8 * length words.old }
    requires some { 8 ≤ length bytes.now }
    ensures bytes { bytes_of_words words.new ≡ paste (bytes_of_words words.old) kept bytes.now (8 - kept) }
    ensures size { length words.new ≡ length words.old }
{
    words[0] = above(words[0], number(&bytes[..8]), kept);
}

// The last of the bytes, where `behind` of them stand behind the first word: those that don't fill a word.
fn write_end(words: &mut [u64], behind: usize, bytes: &[u8])
    requires within { 8 + behind ≤ 8 * length words.old }
    requires some { 8 ≤ length bytes.now }
    ensures bytes { bytes_of_words words.new
        ≡ paste (bytes_of_words words.old) (8 * (behind / 8 + 1)) (drop (length bytes.now - behind % 8) bytes.now) (behind % 8) }
    ensures size { length words.new ≡ length words.old }
{
    let count = behind % 8;
    if count > 0 {
        let low = number(&bytes[bytes.len() - 8..]) >> (8 * (8 - count));
        words[behind / 8 + 1] = below(words[behind / 8 + 1], low, count);
    }
}

// The low bytes of a word that are kept, and above them the low ones of `number`.
fn above(word: u64, number: u64, kept: usize) -> u64
    requires { kept < 8 }
    ensures { result ≡ number % 2 ^ (8 * (8 - kept)) * 2 ^ (8 * kept) + word % 2 ^ (8 * kept) }
{
    (number << (8 * kept)) | (word % (1 << (8 * kept)))
}

// The number `low` of `count` bytes, and above it the other bytes of a word.
fn below(word: u64, low: u64, count: usize) -> u64
    requires few { count < 8 }
    requires fits { low < 2 ^ (8 * count) }
    ensures { result ≡ word / 2 ^ (8 * count) * 2 ^ (8 * count) + low }
{
    (word - word % (1 << (8 * count))) | low
}

// Replaces whole words by the bytes, eight for each, at most eight of them; bytes that are left over
// are not written. The last step overlaps the first.
fn write_whole(words: &mut [u64], first: usize, bytes: &[u8])
    requires room { 8 * first + length bytes.now ≤ 8 * length words.old }
    requires few { length bytes.now < 72 }
    ensures bytes { bytes_of_words words.new ≡ paste (bytes_of_words words.old) (8 * first) bytes.now (8 * (length bytes.now / 8)) }
    ensures size { length words.new ≡ length words.old }
{
    let count = bytes.len() / 8;
    if count >= 4 {
        write_four(words, first, bytes, 0);
        write_four(words, first, bytes, count - 4);
    } else if count >= 2 {
        write_two(words, first, bytes, 0);
        write_two(words, first, bytes, count - 2);
    } else if count == 1 {
        words[first] = number(&bytes[..8]);
    }
}

// Replaces two or more whole words by the bytes, eight for each; bytes that are left over are not written.
fn write_row(words: &mut [u64], first: usize, bytes: &[u8])
    requires room { 8 * first + length bytes.now ≤ 8 * length words.old }
    requires some { 16 ≤ length bytes.now }
    ensures bytes { bytes_of_words words.new ≡ paste (bytes_of_words words.old) (8 * first) bytes.now (8 * (length bytes.now / 8)) }
    ensures size { length words.new ≡ length words.old }
{
    write_pairs(words, first, bytes);
    write_two(words, first, bytes, bytes.len() / 8 - 2);
}

// The words two at a time; one that is left over is not written.
fn write_pairs(words: &mut [u64], first: usize, bytes: &[u8])
    requires { 8 * first + length bytes.now ≤ 8 * length words.old }
    ensures bytes { bytes_of_words words.new ≡ paste (bytes_of_words words.old) (8 * first) bytes.now (16 * (length bytes.now / 16)) }
    ensures size { length words.new ≡ length words.old }
{
    for i in 0..bytes.len() / 16 {
        write_two(words, first, bytes, 2 * i);
    }
}

// Four words, from the bytes at 8 * `skipped` on.
fn write_four(words: &mut [u64], first: usize, bytes: &[u8], skipped: usize)
    requires there { 8 * skipped + 32 ≤ length bytes.now }
    requires room { 8 * first + length bytes.now ≤ 8 * length words.old }
    ensures bytes { bytes_of_words words.new
        ≡ paste (bytes_of_words words.old) (8 * first + 8 * skipped) (take 32 (drop (8 * skipped) bytes.now)) 32 }
    ensures size { length words.new ≡ length words.old }
{
    write_two(words, first, bytes, skipped);
    write_two(words, first, bytes, skipped + 2);
}

// Two words, from the bytes at 8 * `skipped` on.
fn write_two(words: &mut [u64], first: usize, bytes: &[u8], skipped: usize)
    requires there { 8 * skipped + 16 ≤ length bytes.now }
    requires room { 8 * first + length bytes.now ≤ 8 * length words.old }
    ensures bytes { bytes_of_words words.new
        ≡ paste (bytes_of_words words.old) (8 * first + 8 * skipped) (take 16 (drop (8 * skipped) bytes.now)) 16 }
    ensures size { length words.new ≡ length words.old }
{
    let at = 8 * skipped;
    let low = number(&bytes[at..at + 8]);
    let high = number(&bytes[at + 8..at + 16]);
    words[first + skipped] = low;
    words[first + skipped + 1] = high;
}

// The number of at most eight bytes.
fn number(bytes: &[u8]) -> u64
    requires { length bytes.now ≤ 8 }
    ensures value { result ≡ number_of_bytes bytes.now }
    ensures fits { result < 2 ^ (8 * length bytes.now) }
{
    match *bytes {
        [] => 0,
        [a] => a as u64,
        [a, b] => le_u64([a, b, 0, 0, 0, 0, 0, 0]),
        [a, b, c] => le_u64([a, b, c, 0, 0, 0, 0, 0]),
        [a, b, c, d] => le_u64([a, b, c, d, 0, 0, 0, 0]),
        [a, b, c, d, e] => le_u64([a, b, c, d, e, 0, 0, 0]),
        [a, b, c, d, e, f] => le_u64([a, b, c, d, e, f, 0, 0]),
        [a, b, c, d, e, f, g] => le_u64([a, b, c, d, e, f, g, 0]),
        [a, b, c, d, e, f, g, h] => le_u64([a, b, c, d, e, f, g, h]),
        _ => 0,
    }
}
