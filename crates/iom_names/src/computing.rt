//! The number that words compute of numbers and names, from left to right.

ghost use Rattle.std.specs.Prelude.{◌≡◌, ◌<◌, ◌^◌};
ghost use Rattle.iom_names.specs.Computing.{applied, operator_of};
ghost use Rattle.iom_names.specs.declared.computing.Operator.TheVariants.{ShiftLeft, ShiftRight};

use crate::names::Names;
use iom_text::take_word;

/// What a word between two numbers does.
#[derive(Clone, Copy)]
pub enum Operator {
    /// `+`.
    Add,
    /// `-`.
    Subtract,
    /// `<<`.
    ShiftLeft,
    /// `>>`.
    ShiftRight,
    /// `&`.
    And,
    /// `|`.
    Or,
}

/// Why words give no number.
#[derive(Clone, Copy)]
pub enum Slip {
    /// There is no word.
    NoNumber,
    /// A word is neither a number nor a name.
    NoSuchNumber,
    /// An operator has no number behind it.
    NoOperand,
    /// A word between two numbers is no operator.
    NoSuchOperator,
    /// A sum is 2^64 or more.
    LargeSum,
    /// A difference is below 0.
    NegativeDifference,
    /// A shift is by 64 or more.
    LongShift,
    /// A shift left loses a bit.
    LostBit,
}

// What a word between two numbers does; None if it is no operator.
fn operator_of(word: &[u8]) -> Option<Operator>
    ensures { result ≡ operator_of word.now }
{
    match word {
        b"+" => Some(Operator::Add),
        b"-" => Some(Operator::Subtract),
        b"<<" => Some(Operator::ShiftLeft),
        b">>" => Some(Operator::ShiftRight),
        b"&" => Some(Operator::And),
        b"|" => Some(Operator::Or),
        _ => None,
    }
}

// A number shifted left, which loses no bit.
fn shifted_left(number: u64, by: u64) -> Result<u64, Slip>
    ensures { result ≡ applied ShiftLeft number by }
{
    if by >= 64 {
        return Err(Slip::LongShift);
    }
    number.checked_mul(1 << by).ok_or(Slip::LostBit)
}

// A number shifted right.
fn shifted_right(number: u64, by: u64) -> Result<u64, Slip>
    ensures { result ≡ applied ShiftRight number by }
{
    if by >= 64 {
        return Err(Slip::LongShift);
    }
    Ok(number >> by)
}

// What an operator makes of two numbers.
fn applied(operator: Operator, first: u64, second: u64) -> Result<u64, Slip>
    ensures { result ≡ applied operator first second }
{
    match operator {
        Operator::Add => first.checked_add(second).ok_or(Slip::LargeSum),
        Operator::Subtract => first.checked_sub(second).ok_or(Slip::NegativeDifference),
        Operator::ShiftLeft => shifted_left(first, second),
        Operator::ShiftRight => shifted_right(first, second),
        Operator::And => Ok(first & second),
        Operator::Or => Ok(first | second),
    }
}

impl Names {
    ghost use Rattle.std.specs.Prelude.{◌≡◌};
    ghost use Rattle.iom_text.specs.Words.{words_of};
    ghost use Rattle.iom_names.specs.Computing.{computed, next_number, value_of};

    // What an operator and an operand make of a number.
    fn next_number(&self, number: u64, sign: &[u8], word: &[u8]) -> Result<u64, Slip>
        ensures { result ≡ next_number self.now number sign.now word.now }
    {
        let operator = operator_of(sign).ok_or(Slip::NoSuchOperator)?;
        let operand = self.number_said(word).ok_or(Slip::NoSuchNumber)?;
        applied(operator, number, operand)
    }

    // A number, and what each operator with its operand makes of it in turn.
    fn computed(&self, number: u64, text: &[u8]) -> Result<u64, Slip>
        ensures { result ≡ computed self.now number (words_of text.now) }
    {
        let Some((sign, rest)) = take_word(text) else {
            return Ok(number);
        };
        let Some((word, rest)) = take_word(rest) else {
            let _operator = operator_of(sign).ok_or(Slip::NoSuchOperator)?;
            return Err(Slip::NoOperand);
        };
        let next = self.next_number(number, sign, word)?;
        self.computed(next, rest)
    }

    /// The number that a text says: a number or a name, and pairs of an operator and an operand, applied from left to right. An error says why
    /// it says none: the first slip from the left.
    pub(crate) fn value_of(&self, text: &[u8]) -> Result<u64, Slip>
        ensures { result ≡ value_of self.now (words_of text.now) }
    {
        let (word, rest) = take_word(text).ok_or(Slip::NoNumber)?;
        let number = self.number_said(word).ok_or(Slip::NoSuchNumber)?;
        self.computed(number, rest)
    }
}
