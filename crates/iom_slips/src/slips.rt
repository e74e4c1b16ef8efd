//! Why a line of `debug` is bad.

ghost use Rattle.std.specs.Prelude.{◌≡◌, ◌%◌, ◌==◌, ◌++◌, ◌≤◌, bytes_eq, codes, length, map, take, if◌then◌else◌};
ghost use Rattle.iom_text.specs.Words.{words_of};
ghost use Rattle.iom_tool.specs.Parsed.{line_as};
ghost use Rattle.iom_slips.specs.Items.{item_slip};
ghost use Rattle.iom_slips.specs.Quoting.{quoted};
ghost use Rattle.iom_slips.specs.Ranges.{unlike_number};
ghost use Rattle.iom_slips.specs.Patterns.{piece_as};
ghost use Rattle.iom_slips.specs.Slips.{data_slip, include_slip, is_bad, left_at, left_over, missing, reason, slip_of, unlike, verb_slip, words_slip};

use crate::choosing::closest_row;
use crate::items::item_slip;
use crate::pieces::Piece;
use crate::quoting::{push_quoted, push_text, quoted_with, reply_of};
use crate::ranges::{Range, all_digits, push_unlike};
use iom_text::{take_word, words};
use iom_tool::{Language, Line, Reply, line_of};

/// A text of at most 64 bytes, and a word between quotes behind it.
pub fn with_quoted(text: &[u8], word: &[u8]) -> Reply
    requires { length text.now ≤ 64 }
    ensures text { result.items ≡ text.now ++ quoted word.now }
    ensures room { length result.items ≤ 196 }
{
    let mut out = reply_of(text);
    push_quoted(&mut out, word);
    out
}

// Two texts of at most 64 bytes.
fn joined(first: &[u8], second: &[u8]) -> Reply
    requires first { length first.now ≤ 64 }
    requires second { length second.now ≤ 64 }
    ensures text { result.items ≡ first.now ++ second.now }
    ensures room { length result.items ≤ 128 }
{
    let mut out = reply_of(first);
    push_text(&mut out, second);
    out
}

// What is said of a word of this name, which isn't hex digits.
fn not_hex(name: &[u8], word: &[u8]) -> Reply
    requires { length name.now ≤ 7 }
    ensures { result.items ≡ name.now ++ codes " " ++ quoted word.now ++ codes " isn't hex digits" }
{
    let mut out = joined(name, b" ");
    push_quoted(&mut out, word);
    push_text(&mut out, b" isn't hex digits");
    out
}

// What is wrong with a word of bytes, which has this name.
#[tactic(auto, unfolding(crate::specs::Slips::data_slip))]
fn data_slip(name: &[u8], word: &[u8]) -> Reply
    requires { length name.now ≤ 7 }
    ensures { result.items ≡ data_slip name.now word.now }
{
    if !all_digits(16, word) {
        not_hex(name, word)
    } else if word.len() % 2 == 1 {
        joined(name, b" has an odd number of digits")
    } else {
        joined(name, b" has more than 64 bytes")
    }
}

// What is wrong with a word that writes no number of this name and range.
fn number_slip(name: &[u8], range: Range, word: &[u8]) -> Reply
    requires { length name.now ≤ 7 }
    ensures { result.items ≡ name.now ++ codes " " ++ quoted word.now ++ unlike_number range word.now }
{
    let mut out = joined(name, b" ");
    push_quoted(&mut out, word);
    push_unlike(&mut out, range, word);
    out
}

impl Piece {
    ghost use Rattle.std.specs.Prelude.{◌≡◌};
    ghost use Rattle.iom_slips.specs.Patterns.{piece_as};
    ghost use Rattle.iom_slips.specs.Slips.{missing, unlike};

    // What is said where it is missing.
    #[tactic(auto, unfolding(crate::specs::Slips::missing))]
    fn missing(self) -> Reply
        ensures { result.items ≡ missing (piece_as self) }
    {
        match self {
            Piece::Word(_) => reply_of(b"a word is missing"),
            Piece::Among(_, choice) => joined(choice.words(), b" is missing"),
            Piece::Number(operand, _) => joined(operand.name(), b" is missing"),
            Piece::Register | Piece::BlockRegister => reply_of(b"NAME is missing"),
            Piece::Data => reply_of(b"DATA is missing"),
            Piece::Hex => reply_of(b"HEX is missing"),
            Piece::Item => reply_of(b"ITEM is missing"),
        }
    }

    // What is wrong with a word that is not this piece.
    #[tactic(auto, unfolding(crate::specs::Slips::unlike))]
    fn unlike(self, word: &[u8]) -> Reply
        ensures { result.items ≡ unlike (piece_as self) word.now }
    {
        match self {
            Piece::Word(_) => with_quoted(b"no line begins with ", word),
            Piece::Among(_, choice) => {
                let mut out = quoted_with(word, b" isn't ");
                push_text(&mut out, choice.words());
                out
            }
            Piece::Number(operand, range) => number_slip(operand.name(), range, word),
            Piece::Register => quoted_with(word, b" is no register"),
            Piece::BlockRegister => quoted_with(word, b" is no register of a block device"),
            Piece::Data => data_slip(b"DATA", word),
            Piece::Hex => data_slip(b"HEX", word),
            Piece::Item => reply_of(b"ITEM is missing"),
        }
    }
}

// What is wrong with the words of an item that `put` would store.
fn put_slip(text: &[u8]) -> Reply
    ensures { result.items ≡ item_slip (take 15 (words_of text.now)) (codes "ITEM would end above 2^64") }
{
    item_slip(words(text).as_slice(), b"ITEM would end above 2^64")
}

// What is wrong behind all pieces; where no word is left, the last text.
fn left_over(text: &[u8], last: &[u8]) -> Reply
    requires { length last.now ≤ 64 }
    ensures { result.items ≡ left_over (words_of text.now) last.now }
{
    match take_word(text) {
        Some((word, _)) => quoted_with(word, b" is one word too many"),
        None => reply_of(last),
    }
}

/// What is wrong where a text leaves some pieces; the last text, of at most 64 bytes, where it is all of them.
#[tactic(auto, unfolding(crate::specs::Slips::left_at))]
pub fn left_at(pieces: &[Piece], text: &[u8], last: &[u8]) -> Reply
    requires { length last.now ≤ 64 }
    ensures { result.items ≡ left_at (map piece_as pieces.now) (words_of text.now) last.now }
{
    let [piece, others @ ..] = pieces else {
        return left_over(text, last);
    };
    if let Piece::Item = piece {
        return put_slip(text);
    }
    let Some((word, rest)) = take_word(text) else {
        return piece.missing();
    };
    if piece.is(word) {
        left_at(others, rest, last)
    } else {
        piece.unlike(word)
    }
}

// What is wrong behind the word `include`.
fn include_slip(text: &[u8]) -> Reply
    ensures { result.items ≡ include_slip (words_of text.now) }
{
    let Some((_, rest)) = take_word(text) else {
        return reply_of(b"include: FILE is missing");
    };
    match take_word(rest) {
        Some(_) => reply_of(b"include: a file's name has no blank"),
        None => with_quoted(b"no line begins with ", b"include"),
    }
}

// What is wrong with a first word that no row has, by the text behind it.
fn verb_slip(word: &[u8], rest: &[u8]) -> Reply
    ensures { result.items ≡ (if bytes_eq word.now (codes "include") then include_slip (words_of rest.now) else verb_slip word.now) }
{
    if word == b"include".as_slice() {
        include_slip(rest)
    } else {
        with_quoted(b"no line begins with ", word)
    }
}

// What is wrong by the row that a text fits farthest.
#[tactic(auto, unfolding(crate::specs::Slips::words_slip))]
fn words_slip(pieces: &[Piece], text: &[u8]) -> Reply
    ensures { result.items ≡ words_slip (map piece_as pieces.now) (words_of text.now) }
{
    if !pieces.is_empty() {
        return left_at(pieces, text, b"no line has these words");
    }
    match take_word(text) {
        Some((word, rest)) => verb_slip(word, rest),
        None => reply_of(b"no line has these words"),
    }
}

// Why a line is none of `debug`.
#[tactic(auto, unfolding(crate::specs::Slips::reason))]
fn reason(line: &[u8]) -> Reply
    ensures { result.items ≡ reason line.now }
{
    if line.len() > 512 {
        reply_of(b"a line has at most 512 bytes")
    } else if line.contains(&b'\n') {
        reply_of(b"a line end stands within the line")
    } else {
        words_slip(closest_row(line), line)
    }
}

// Whether what was read is no line.
fn is_bad(line: &Line) -> bool
    ensures { result ≡ is_bad (line_as line.now) }
{
    matches!(line, Line::Bad)
}

/// Why `debug`, `check` and `explain` answer `bad` to a line, given without its line end: of the rows of their table the first whose longest
/// front the words of the line fit, and the first word at which the line leaves it, as `VALUE is missing`.
/// Empty for any other line.
#[tactic(auto, unfolding(crate::specs::Slips::slip_of))]
pub fn slip(line: &[u8]) -> Reply
    ensures { result.items ≡ slip_of line.now }
{
    if is_bad(&line_of(Language::Debug, line)) {
        reason(line)
    } else {
        Reply::new()
    }
}
