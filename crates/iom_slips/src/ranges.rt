//! The numbers that operands may be.

ghost use Rattle.std.specs.Prelude.{◌≡◌, ◌+◌, ◌^◌, ◌<◌, ◌≤◌, ◌++◌, ◌&&◌, ◌==◌, codes, length, nat_lt, bytes_eq, take};
ghost use Rattle.std.specs.Char.{digit_value};
ghost use Rattle.std.specs.List.{list_all};
ghost use Rattle.iom_text.specs.Texts.{numeral};
ghost use Rattle.iom_tool.specs.Room.{answer_room};
ghost use Rattle.iom_slips.specs.Ranges.{are_digits, beyond, is_numeral, outside, unlike_number};

use crate::quoting::push_text;
use iom_text::{decimal, digit_value};
use iom_tool::Reply;

/// The numbers that an operand may be.
#[derive(Clone, Copy)]
pub enum Range {
    /// Each below 2^64.
    Any,
    /// Of so many bits.
    Bits(u32),
    /// 1 to 64, a number of bytes.
    Count,
    /// 1 to 2^20, a number of steps.
    Limit,
    /// 1 to 2^24, a number of bytes whose pages are read ahead.
    Extent,
}

// Whether a number has so many bits at most.
fn has_bits(number: u64, width: u32) -> bool
    ensures { result ≡ nat_lt number (2 ^ width) }
{
    width >= 64 || number < 1 << width
}

impl Range {
    ghost use Rattle.std.specs.Prelude.{◌≡◌};
    ghost use Rattle.iom_slips.specs.Ranges.{is_in, is_one_in};

    // Whether a number is one of these.
    #[tactic(auto, unfolding(crate::specs::Ranges::is_in))]
    fn has(self, number: u64) -> bool
        ensures { result ≡ is_in self number }
    {
        match self {
            Range::Any => true,
            Range::Bits(width) => has_bits(number, width),
            Range::Count => number >= 1 && number <= 64,
            Range::Limit => number >= 1 && number <= 1 << 20,
            Range::Extent => number >= 1 && number <= 1 << 24,
        }
    }

    /// Whether a number that a word writes is one of these.
    pub fn has_one(self, number: Option<u64>) -> bool
        ensures { result ≡ is_one_in self number }
    {
        match number {
            Some(number) => self.has(number),
            None => false,
        }
    }
}

// Appends that a number is a power of two or more.
fn push_power(out: &mut Reply, width: u32)
    requires { length out.old.items + 40 ≤ answer_room }
    ensures { out.new.items ≡ out.old.items ++ (codes " is 2^" ++ numeral 10 width ++ codes " or more") }
{
    push_text(out, b" is 2^");
    push_text(out, decimal(u64::from(width)).as_slice());
    push_text(out, b" or more");
}

// Appends that a number has more than so many bits.
#[tactic(auto, unfolding(crate::specs::Ranges::beyond))]
fn push_beyond(out: &mut Reply, width: u32)
    requires { length out.old.items + 40 ≤ answer_room }
    ensures { out.new.items ≡ out.old.items ++ beyond width }
{
    if width == 1 {
        push_text(out, b" isn't 0 or 1");
    } else {
        push_power(out, width);
    }
}

// Appends what is said of a number that is none of these.
#[tactic(auto, unfolding(crate::specs::Ranges::outside))]
fn push_outside(out: &mut Reply, range: Range)
    requires { length out.old.items + 40 ≤ answer_room }
    ensures { out.new.items ≡ out.old.items ++ outside range }
{
    match range {
        Range::Any => push_text(out, b" is 2^64 or more"),
        Range::Bits(width) => push_beyond(out, width),
        Range::Count => push_text(out, b" isn't 1 to 64"),
        Range::Limit => push_text(out, b" isn't 1 to 2^20"),
        Range::Extent => push_text(out, b" isn't 1 to 2^24"),
    }
}

/// Whether each byte is a digit of this radix.
pub fn all_digits(radix: u8, digits: &[u8]) -> bool
    ensures { result ≡ list_all (λ c. nat_lt (digit_value c) radix) digits.now }
{
    digits.iter().all(|c| digit_value(*c) < radix)
}

// Whether a text is digits of this radix, one at least.
fn are_digits(radix: u8, digits: &[u8]) -> bool
    ensures { result ≡ are_digits radix digits.now }
{
    !digits.is_empty() && all_digits(radix, digits)
}

// Whether a word is digits as a number has them, of a number of any size.
#[tactic(auto, unfolding(crate::specs::Ranges::is_numeral))]
fn is_numeral(word: &[u8]) -> bool
    ensures { result ≡ is_numeral word.now }
{
    match word {
        [b'0', b'x', digits @ ..] => are_digits(16, digits),
        _ => are_digits(10, word),
    }
}

/// Appends what is said of a word that writes none of these numbers, at most 40 bytes.
pub fn push_unlike(out: &mut Reply, range: Range, word: &[u8])
    requires { length out.old.items + 40 ≤ answer_room }
    ensures text { out.new.items ≡ out.old.items ++ unlike_number range word.now }
{
    if is_numeral(word) {
        push_outside(out, range);
    } else {
        push_text(out, b" isn't a number");
    }
}
