//! The row that the words of a line fit farthest.

ghost use Rattle.std.specs.Prelude.{◌≡◌, ◌*◌, ◌%◌, ◌==◌, ◌&&◌, ◌≤◌, [], is_some, length, map};
ghost use Rattle.std.specs.List.{AllByRecursion};
ghost use Rattle.iom_text.specs.Words.{words_of};
ghost use Rattle.iom_tool.specs.Words.{bytes_of};
ghost use Rattle.iom_slips.specs.Patterns.{IsShort, pattern_as, patterns, piece_as};
ghost use Rattle.iom_slips.specs.Slips.{begins_with_digit, closest, fit, is_hex};

use crate::patterns::{PATTERNS, Pattern};
use crate::pieces::Piece;
use crate::ranges::all_digits;
use arrayvec::ArrayVec;
use iom_text::{digit_value, number, take_word};
use iom_tool::{block_register_named, put_bytes_of, register_named};

// Whether a word begins with a decimal digit.
fn begins_with_digit(word: &[u8]) -> bool
    ensures { result ≡ begins_with_digit word.now }
{
    match word {
        [] => false,
        [first, ..] => digit_value(*first) < 10,
    }
}

// Whether a word is hex digits of 1 to 64 bytes.
fn is_data(word: &[u8]) -> bool
    ensures { result ≡ is_some (bytes_of word.now) }
{
    let mut bytes = ArrayVec::new();
    put_bytes_of(word, &mut bytes)
}

// Whether a word is hex digits, two a byte.
fn is_hex_pairs(word: &[u8]) -> bool
    ensures { result ≡ (is_hex word.now && length word.now % 2 == 0) }
{
    all_digits(16, word) && word.len() % 2 == 0
}

impl Piece {
    ghost use Rattle.std.specs.Prelude.{◌≡◌};
    ghost use Rattle.iom_slips.specs.Patterns.{piece_as};
    ghost use Rattle.iom_slips.specs.Slips.{is_meant, is_piece};

    /// Whether a word is this piece; an item judges its words itself.
    #[tactic(auto, unfolding(crate::specs::Slips::is_piece))]
    pub fn is(self, word: &[u8]) -> bool
        ensures { result ≡ is_piece (piece_as self) word.now }
    {
        match self {
            Piece::Word(name) => word == name,
            Piece::Among(name, _) => word == name,
            Piece::Number(_, range) => range.has_one(number(word)),
            Piece::Register => register_named(word).is_some(),
            Piece::BlockRegister => block_register_named(word).is_some(),
            Piece::Data => is_data(word),
            Piece::Hex => is_hex_pairs(word),
            Piece::Item => false,
        }
    }

    // Whether a word that is not this piece may be meant so.
    #[tactic(auto, unfolding(crate::specs::Slips::is_meant))]
    fn is_meant(self, word: &[u8]) -> bool
        ensures { result ≡ is_meant (piece_as self) word.now }
    {
        match self {
            Piece::Number(..) => begins_with_digit(word),
            Piece::Register | Piece::BlockRegister => !begins_with_digit(word),
            _ => false,
        }
    }
}

// How far a text fits some pieces.
#[tactic(auto, unfolding(crate::specs::Slips::fit))]
fn fit(pieces: &[Piece], text: &[u8]) -> usize
    requires { length pieces.now ≤ 6 }
    ensures fit { result ≡ fit (map piece_as pieces.now) (words_of text.now) }
    ensures small { result ≤ 2 * length pieces.now }
{
    let [piece, others @ ..] = pieces else {
        return 0;
    };
    let Some((word, rest)) = take_word(text) else {
        return 0;
    };
    if piece.is(word) {
        2 + fit(others, rest)
    } else {
        usize::from(piece.is_meant(word))
    }
}

// The first of some patterns that a text fits farthest.
#[tactic(auto, unfolding(crate::specs::Slips::closest))]
fn closest(pieces: &'static [Piece], others: &[Pattern], text: &[u8]) -> &'static [Piece]
    requires short { length pieces.now ≤ 6 }
    requires others { AllByRecursion IsShort others.now }
    ensures { map piece_as result.now ≡ closest (map piece_as pieces.now) (map pattern_as others.now) (words_of text.now) }
{
    let [other, more @ ..] = others else {
        return pieces;
    };
    if fit(pieces, text) < fit(other.0, text) {
        closest(other.0, more, text)
    } else {
        closest(pieces, more, text)
    }
}

/// The row that a text fits farthest; none where its first word is that of none.
#[tactic(auto, unfolding(crate::specs::Patterns::patterns))]
pub fn closest_row(text: &[u8]) -> &'static [Piece]
    ensures { map piece_as result.now ≡ closest [] patterns (words_of text.now) }
{
    closest(&[], &PATTERNS, text)
}
