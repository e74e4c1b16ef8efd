//! Words that stand from a physical address on, read and written by physical addresses.

ghost use Rattle.std.specs.Prelude.{◌≡◌, ◌+◌, ◌*◌, ◌%◌, ◌≤◌, ◌<◌, ◌⊎◌, length, take, drop, Some, None, IfSome, IfNone};
ghost use Rattle.std.specs.Bool.{OnTrue, OnFalse};
ghost use Rattle.std.specs.Option.{is_some};
ghost use Rattle.iom_mem.specs.Lent.{memory_of};
ghost use Rattle.iom_mem.specs.Memory.{bytes_at, word, words_at, put, ReplacesBytes};
ghost use Rattle.iom_mem.specs.Words.{bytes_of_words};

use crate::word_bytes::{read_bytes, read_words, word_from, write_bytes};

/// How many bytes the words have.
#[tactic(auto, using(crate::proofs::WordBytes::words_hold))]
pub fn size(words: &[u64]) -> u64
    ensures value { result ≡ length (bytes_of_words words.now) }
    ensures whole { result ≡ 8 * length words.now }
{
    8 * words.len() as u64
}

/// Reads the bytes from `addr` on into `out`, and answers true; false if one of them is outside, and then `out` is unchanged.
#[tactic(auto, using(crate::proofs::Bytes::empty_read, crate::proofs::WordBytes::words_hold))]
pub fn read(base: u64, words: &[u64], addr: u64, out: &mut [u8]) -> bool
    ensures read { OnTrue result (bytes_at (memory_of base words.now) addr (length out.old) ≡ Some out.new) }
    ensures outside { OnFalse result (bytes_at (memory_of base words.now) addr (length out.old) ≡ None) }
    ensures unchanged { OnFalse result (out.new ≡ out.old) }
{
    match place(base, words, addr, out.len()) {
        Some(at) => {
            read_bytes(words, at, out);
            true
        }
        None => out.is_empty(),
    }
}

/// Writes `bytes` from `addr` on, and answers true; false if one of the places is outside, and then nothing is changed.
#[tactic(auto, using(crate::proofs::Bytes::empty_write, crate::proofs::WordBytes::words_hold))]
pub fn write(base: u64, words: &mut [u64], addr: u64, bytes: &[u8]) -> bool
    ensures inside { result ≡ is_some (bytes_at (memory_of base words.old) addr (length bytes.now)) }
    ensures written { OnTrue result (memory_of base words.new ≡ put (memory_of base words.old) addr bytes.now) }
    ensures replaces { OnTrue result (ReplacesBytes (memory_of base words.old) addr bytes.now (memory_of base words.new)) }
    ensures unchanged { OnFalse result (words.new ≡ words.old) }
    ensures size { length words.new ≡ length words.old }
{
    match place(base, words, addr, bytes.len()) {
        Some(at) => {
            write_bytes(words, at, bytes);
            true
        }
        None => bytes.is_empty(),
    }
}

/// The number of the eight bytes from `addr` on, the lowest byte first; None if one of them is outside.
#[tactic(auto, using(crate::proofs::WordBytes::words_hold))]
pub fn word(base: u64, words: &[u64], addr: u64) -> Option<u64>
    requires { base % 8 ≡ 0 }
    ensures { result ≡ word (memory_of base words.now) addr }
{
    let at = place(base, words, addr, 8)?;
    // The base is a multiple of 8, so the address modulo 8 is how far into a word this is.
    Some(word_from(words, at / 8, addr as usize % 8))
}

/// Reads the words from `addr` on, of any alignment, into `out`, and answers true; false if a byte of one is outside, and then `out` is
/// unchanged.
#[tactic(auto, using(crate::proofs::WordBytes::words_hold))]
pub fn words(base: u64, words: &[u64], addr: u64, out: &mut [u64]) -> bool
    ensures read { OnTrue result (words_at (memory_of base words.now) addr (length out.old) ≡ Some out.new) }
    ensures outside { OnFalse result (words_at (memory_of base words.now) addr (length out.old) ≡ None) }
    ensures unchanged { OnFalse result (out.new ≡ out.old) }
{
    let Some(at) = place(base, words, addr, 8 * out.len()) else {
        return out.is_empty();
    };
    read_words(words, at, out);
    true
}

// Where the `len` bytes from `addr` on stand among the bytes of the words; None where one is outside.
#[tactic(auto, using(crate::proofs::Bytes::bytes_at_inside, crate::proofs::Bytes::bytes_at_below, crate::proofs::Bytes::bytes_at_past))]
fn place(base: u64, words: &[u64], addr: u64, len: usize) -> Option<usize>
    ensures place { IfSome result (λ at. (base + at ≡ addr) × (at + len ≤ length (bytes_of_words words.now))) }
    ensures inside { IfSome result
        (λ at. bytes_at (memory_of base words.now) addr len ≡ Some (take len (drop at (bytes_of_words words.now)))) }
    ensures beyond { IfNone result ((addr < base) ⊎ (base + length (bytes_of_words words.now) < addr + len)) }
    ensures outside { IfNone result (0 < len → bytes_at (memory_of base words.now) addr len ≡ None) }
{
    let at = addr.checked_sub(base)?;
    // How many places so many bytes can begin at.
    let places = (size(words) + 1).saturating_sub(len as u64);
    if at < places { Some(at as usize) } else { None }
}
