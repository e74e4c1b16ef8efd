ghost use Rattle.std.specs.Prelude.{◌≡◌, ◌*◌, ◌-◌, ◌++◌, ◌<◌, ◌≤◌, Some, None, true, false, is_some, length, replicate};
ghost use Rattle.std.specs.Result.{result_ok};
ghost use Rattle.hex.specs.Hex.{hex_digit_value, decode_pairs};
ghost use Rattle.iom_tool.specs.Words.{bytes_of};

use arrayvec::ArrayVec;

// The value of a hex digit; 16 of any other byte. It is computed without a table, so that those of many digits are computed at once.
#[inline(always)]
fn value_of(c: u8) -> u8
    ensures digit { result < 16 → hex_digit_value c ≡ Some result }
    ensures other { 16 ≤ result → hex_digit_value c ≡ None }
{
    let digit = c.wrapping_sub(b'0');
    let letter = (c | 0x20).wrapping_sub(b'a');
    if digit < 10 {
        digit
    } else if letter < 6 {
        letter + 10
    } else {
        16
    }
}

// Puts the bytes that pairs of hex digits write, and answers whether all are digits, which all their values together show.
#[inline(always)]
fn decode(word: &[u8], bytes: &mut [u8]) -> bool
    requires { length word.now ≡ 2 * length bytes.old }
    ensures all { result ≡ true → Some bytes.new ≡ result_ok (decode_pairs 0 word.now) }
    ensures other { result ≡ false → result_ok (decode_pairs 0 word.now) ≡ None }
{
    let mut met = 0;
    for i in 0..bytes.len() {
        let high = value_of(word[2 * i]);
        let low = value_of(word[2 * i + 1]);
        met |= high | low;
        bytes[i] = high.wrapping_mul(16).wrapping_add(low);
    }
    met < 16
}

// A word of at most 128 digits, with the digit 0 behind it.
#[inline(always)]
fn padded(word: &[u8]) -> [u8; 128]
    requires { length word.now ≤ 128 }
    ensures { result ≡ word.now ++ replicate (128 - length word.now) 48 }
{
    let mut digits = [b'0'; 128];
    digits[..word.len()].copy_from_slice(word);
    digits
}

/// Writes the 1 to 64 bytes of a word of 2 to 128 hex digits to `bytes`, and answers whether the word is one; for any other word `bytes`
/// may hold anything. All 64 places are decoded, since such a loop has no branch.
#[inline(always)]
#[tactic(auto, unfolding(crate::specs::Words::bytes_of))]
pub fn put_bytes_of(word: &[u8], bytes: &mut ArrayVec<u8, 64>) -> bool
    ensures some { result ≡ true → bytes_of word.now ≡ Some bytes.new.items }
    ensures none { result ≡ false → bytes_of word.now ≡ None }
{
    if word.len() < 2 || word.len() > 128 || word.len() % 2 != 0 {
        return false;
    }
    let mut all = [0; 64];
    if !decode(&padded(word), &mut all) {
        return false;
    }
    *bytes = ArrayVec::from(all);
    bytes.truncate(word.len() / 2);
    true
}

/// Whether a word is 1 to 64 bytes in hex.
pub fn is_data(word: &[u8]) -> bool
    ensures { result ≡ is_some (bytes_of word.now) }
{
    let mut bytes = ArrayVec::new();
    put_bytes_of(word, &mut bytes)
}
