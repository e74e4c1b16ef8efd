//! An answer's text while it is put together.

ghost use Rattle.std.specs.Prelude.{◌≡◌, ◌+◌, ◌*◌, slice_index, ◌++◌, ◌<◌, ◌≤◌, length, take, [], ◌∷◌};
ghost use Rattle.hex.specs.Hex.{encode_lower, lower_digits};
ghost use Rattle.iom_text.specs.Texts.{hexadecimal, numeral};

use iom_text::{put_decimal, put_hex};
use std::marker::Model;

/// The longest answer to a line of a script, in bytes.
pub const ANSWER_ROOM: usize = 320;

/// Room for any answer. To empty it writes nothing but its length.
#[derive(Drop)]
pub struct ReplyDraft {
    bytes: [u8; ANSWER_ROOM],
    len: usize,
}

impl Model for ReplyDraft {
    ghost use Rattle.iom_tool.specs.Room.{answer_room};
    ghost use Rattle.std.specs.Prelude.{ℕ, ◌≤◌, List, take};

    ghost Value = { List ℕ };

    ghost view = { λ draft. take draft.len draft.bytes };

    ghost invariant = { λ draft. draft.len ≤ answer_room };
}

impl ReplyDraft {
    ghost use Rattle.iom_tool.specs.Room.{answer_room};

    /// An empty text.
    pub fn new() -> ReplyDraft
        ensures { result ≡ [] }
    {
        ReplyDraft {
            bytes: [0; ANSWER_ROOM],
            len: 0,
        }
    }

    /// Empties the text.
    pub fn clear(&mut self)
        ensures { self.new ≡ [] }
    {
        self.len = 0;
    }

    /// The bytes of the text, at most `ANSWER_ROOM`.
    #[inline(always)]
    pub fn as_slice(&self) -> &[u8]
        ensures { result.now ≡ self.now }
    {
        &self.bytes[..self.len]
    }

    /// Appends a byte, for which there is room.
    #[inline(always)]
    pub fn push(&mut self, byte: u8)
        requires { length self.old < answer_room }
        ensures { self.new ≡ self.old ++ byte ∷ [] }
    {
        self.bytes[self.len] = byte;
        self.len += 1;
    }

    /// Appends bytes, for which there is room.
    #[inline(always)]
    pub fn append(&mut self, text: &[u8])
        requires { length self.old + length text.now ≤ answer_room }
        ensures { self.new ≡ self.old ++ text.now }
    {
        let end = self.len + text.len();
        self.bytes[self.len..end].copy_from_slice(text);
        self.len = end;
    }

    /// Appends a number as `0x` and hex digits in lower case, at most 18 bytes.
    #[inline(always)]
    pub fn append_hexadecimal(&mut self, number: u64)
        requires { length self.old + 18 < answer_room }
        ensures text { self.new ≡ self.old ++ hexadecimal number }
        ensures room { length self.new ≤ length self.old + 18 }
    {
        self.push(b'0');
        self.push(b'x');
        self.append_digits(number);
    }

    // Appends a number's hex digits, which are put in place.
    #[inline(always)]
    fn append_digits(&mut self, number: u64)
        requires { length self.old + 16 < answer_room }
        ensures text { self.new ≡ self.old ++ numeral 16 number }
        ensures room { length self.new ≤ length self.old + 16 }
    {
        let count = put_hex(&mut self.bytes[self.len..self.len + 16], number);
        self.len += count;
    }

    /// Appends a number as decimal digits, at most 20 bytes.
    #[inline(always)]
    pub fn append_decimal(&mut self, number: u64)
        requires { length self.old + 20 < answer_room }
        ensures text { self.new ≡ self.old ++ numeral 10 number }
        ensures room { length self.new ≤ length self.old + 20 }
    {
        let count = put_decimal(&mut self.bytes[self.len..self.len + 20], number);
        self.len += count;
    }

    /// Appends at most 64 bytes as hex digits in lower case, two for each.
    pub fn append_hex(&mut self, bytes: &[u8])
        requires few { length bytes.now ≤ 64 }
        requires room { length self.old + 128 ≤ answer_room }
        ensures text { self.new ≡ self.old ++ encode_lower bytes.now }
        ensures room { length self.new ≤ length self.old + 128 }
    {
        put_digits(bytes, &mut self.bytes[self.len..self.len + 128]);
        self.len += 2 * bytes.len();
    }
}

// The hex digit of a number below 16, found without a branch.
#[inline(always)]
fn glyph(digit: u8) -> u8
    requires { digit < 16 }
    ensures { result ≡ slice_index lower_digits digit }
{
    b'0' + digit + 39 * u8::from(digit > 9)
}

// Puts bytes as hex digits in lower case, two a byte.
#[inline(always)]
fn encode(bytes: &[u8], digits: &mut [u8])
    requires { length digits.old ≡ 2 * length bytes.now }
    ensures { digits.new ≡ encode_lower bytes.now }
{
    for i in 0..bytes.len() {
        digits[2 * i] = glyph(bytes[i] / 16);
        digits[2 * i + 1] = glyph(bytes[i] % 16);
    }
}

// Bytes with zeros behind them.
#[inline(always)]
fn padded(bytes: &[u8]) -> [u8; 64]
    requires { length bytes.now ≤ 64 }
    ensures { take (length bytes.now) result ≡ bytes.now }
{
    let mut all = [0; 64];
    all[..bytes.len()].copy_from_slice(bytes);
    all
}

// Puts bytes as hex digits at the front of 128 places. All are written, since a loop over so many has no branch.
#[inline(always)]
fn put_digits(bytes: &[u8], places: &mut [u8])
    requires few { length bytes.now ≤ 64 }
    requires room { length places.old ≡ 128 }
    ensures front { take (2 * length bytes.now) places.new ≡ encode_lower bytes.now }
{
    let all = padded(bytes);
    encode(&all, places);
}
