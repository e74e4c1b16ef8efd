//! Why a `let` gives no name a number.

ghost use Rattle.std.specs.Prelude.{◌≡◌, ◌≤◌, length};
ghost use Rattle.iom_names.specs.Slips.{name_slip, number_slip};

use crate::computing::Slip;
use crate::names::Names;
use crate::spelling::{MOST_BYTES_OF_A_NAME, begins_so, has_name_bytes, is_name};
use iom_text::take_word;

// Why a word may not be a name.
fn name_slip(word: &[u8]) -> &'static [u8]
    ensures text { result.now ≡ name_slip word.now }
    ensures short { length result.now ≤ 64 }
{
    if word.len() > MOST_BYTES_OF_A_NAME {
        b"let: NAME has more than 32 bytes"
    } else if !begins_so(word) {
        b"let: NAME doesn't begin with a letter or _"
    } else if !has_name_bytes(word) {
        b"let: NAME has a byte that isn't a letter, a digit or _"
    } else {
        b"let: NAME is a word of lines, a key, a register or bytes"
    }
}

// Why words give no number.
fn number_slip(slip: Slip) -> &'static [u8]
    ensures text { result.now ≡ number_slip slip }
    ensures short { length result.now ≤ 64 }
{
    match slip {
        Slip::NoNumber => b"let: NUMBER is missing",
        Slip::NoSuchNumber => b"let: NUMBER is neither a number nor a name",
        Slip::NoOperand => b"let: NUMBER is missing behind an operator",
        Slip::NoSuchOperator => b"let: an operator is none of + - << >> & |",
        Slip::LargeSum => b"let: a sum is 2^64 or more",
        Slip::NegativeDifference => b"let: a difference is below 0",
        Slip::LongShift => b"let: a shift is by 64 or more",
        Slip::LostBit => b"let: a shift left loses a bit",
    }
}

impl Names {
    ghost use Rattle.std.specs.Prelude.{◌≡◌, ◌≤◌, drop, length};
    ghost use Rattle.iom_text.specs.Words.{words_of};
    ghost use Rattle.iom_names.specs.Slips.{let_slip};

    // By what stands behind `let`.
    fn binding_slip(&self, text: &[u8]) -> &'static [u8]
        ensures text { result.now ≡ let_slip self.now (words_of text.now) }
        ensures short { length result.now ≤ 64 }
    {
        let Some((name, rest)) = take_word(text) else {
            return b"let: NAME is missing";
        };
        if !is_name(name) {
            return name_slip(name);
        }
        match self.value_of(rest) {
            Ok(_) => b"let: there are 64 names already",
            Err(slip) => number_slip(slip),
        }
    }

    /// Why a line whose first word is `let` gives no name a number, with these names, if it has at most 512 bytes and gives none.
    pub fn let_slip(&self, text: &[u8]) -> &'static [u8]
        ensures text { result.now ≡ let_slip self.now (drop 1 (words_of text.now)) }
        ensures short { length result.now ≤ 64 }
    {
        match take_word(text) {
            Some((_, rest)) => self.binding_slip(rest),
            None => b"let: NAME is missing",
        }
    }
}
