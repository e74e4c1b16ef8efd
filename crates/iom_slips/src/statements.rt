//! What is wrong with a statement of an image's text.

ghost use Rattle.std.specs.Prelude.{◌≡◌, ◌==◌, ◌∷◌, codes, length, map, take};
ghost use Rattle.iom_text.specs.Words.{words_of};
ghost use Rattle.iom_slips.specs.declared.items.Keys.TheVariants as keys;
ghost use Rattle.iom_slips.specs.Items.{item_slip, operands_slip};
ghost use Rattle.iom_slips.specs.Statements.{disk_pieces, disk_slip, first_slip, later_slip, ram_slip, stated_slip, statement_slip_of, window_slip};

use crate::items::{capabilities_slip, item_slip};
use crate::pieces::{Operand, Piece};
use crate::quoting::{quoted_with, reply_of};
use crate::ranges::Range;
use crate::slips::{left_at, with_quoted};
use iom_items::Item;
use iom_text::{take_word, words};
use iom_tool::Reply;

const BASE: Piece = Piece::Number(Operand::Base, Range::Any);

const SIZE: Piece = Piece::Number(Operand::Size, Range::Any);

const ADDR: Piece = Piece::Number(Operand::Address, Range::Any);

const DID: Piece = Piece::Number(Operand::DeviceId, Range::Any);

const SECTORS: Piece = Piece::Number(Operand::Sectors, Range::Any);

// What is wrong with the operands of `ram`.
fn ram_slip(text: &[u8]) -> Reply
    ensures { result.items ≡ ram_slip (words_of text.now) }
{
    left_at(
        &[BASE, SIZE],
        text,
        b"BASE and SIZE are multiples of 4096, SIZE at most 2^26",
    )
}

// What is wrong with the statement that a text begins with.
#[tactic(auto, unfolding(crate::specs::Statements::first_slip))]
fn first_slip(name: &[u8], text: &[u8]) -> Reply
    ensures { result.items ≡ first_slip name.now (words_of text.now) }
{
    if name == b"ram".as_slice() {
        ram_slip(text)
    } else {
        with_quoted(b"the first statement is ram, not ", name)
    }
}

// Whether a text has two words.
fn are_two(text: &[u8]) -> bool
    ensures { result ≡ (length (words_of text.now) == 2) }
{
    let Some((_, rest)) = take_word(text) else {
        return false;
    };
    match take_word(rest) {
        Some((_, rest)) => take_word(rest).is_none(),
        None => false,
    }
}

// What is wrong with the operands of `disk` or `rodisk`.
#[tactic(auto, unfolding(crate::specs::Statements::disk_slip))]
fn disk_slip(text: &[u8]) -> Reply
    ensures { result.items ≡ disk_slip (words_of text.now) }
{
    let last = b"no disk of this DID and this size can stand here";
    if are_two(text) {
        left_at(&[DID, SECTORS], text, last)
    } else {
        left_at(&[DID, SECTORS, Piece::Hex], text, last)
    }
}

// What is wrong with the operands of `capabilities`.
fn offered_slip(text: &[u8]) -> Reply
    ensures { result.items
        ≡ operands_slip keys.Capabilities (take 15 (words_of text.now)) (codes "capabilities stand once, with vectors 1, 2 or 4, igs 0, 1 or 2") }
{
    capabilities_slip(
        words(text).as_slice(),
        b"capabilities stand once, with vectors 1, 2 or 4, igs 0, 1 or 2",
    )
}

// What is wrong with the operands of `window`.
fn window_slip(text: &[u8]) -> Reply
    ensures { result.items ≡ window_slip (words_of text.now) }
{
    left_at(
        &[BASE, SIZE],
        text,
        b"a window stands once, of whole pages below 2^56, beside memory",
    )
}

// What is wrong with an item, by the words of its line.
fn words_slip(line: &[u8]) -> Reply
    ensures { result.items ≡ item_slip (take 15 (words_of line.now)) (codes "the machine lacks a capability that this names") }
{
    item_slip(
        words(line).as_slice(),
        b"the machine lacks a capability that this names",
    )
}

// What is wrong with a statement of this name, which is the first word of the line, and this text behind it.
#[tactic(auto, unfolding(crate::specs::Statements::stated_slip))]
fn stated_slip(name: &[u8], text: &[u8], line: &[u8]) -> Reply
    requires { words_of line.now ≡ name.now ∷ words_of text.now }
    ensures { result.items ≡ stated_slip name.now (words_of text.now) }
{
    if Item::named(name).is_some() {
        words_slip(line)
    } else {
        quoted_with(name, b" is no statement")
    }
}

// What is wrong with a statement that isn't the first.
#[tactic(auto, unfolding(crate::specs::Statements::later_slip))]
fn later_slip(name: &[u8], text: &[u8], line: &[u8]) -> Reply
    requires { words_of line.now ≡ name.now ∷ words_of text.now }
    ensures { result.items ≡ later_slip name.now (words_of text.now) }
{
    if name == b"at".as_slice() {
        left_at(&[ADDR], text, b"ADDR can't stand here")
    } else if name == b"bytes".as_slice() {
        left_at(&[Piece::Hex], text, b"HEX can't stand here")
    } else if name == b"disk".as_slice() || name == b"rodisk".as_slice() {
        disk_slip(text)
    } else if name == b"capabilities".as_slice() {
        offered_slip(text)
    } else if name == b"window".as_slice() {
        window_slip(text)
    } else if name == b"ram".as_slice() {
        reply_of(b"ram stands once")
    } else {
        stated_slip(name, text, line)
    }
}

/// What is wrong with a line of an image's text that the assembler calls bad, by its own words, as `"vnaa" isn't vma, gvma, fence or iodir`:
/// with the first statement of the text, or with a later one. Empty for a line without words. Of a line that can
/// stand it says nothing of use.
#[tactic(auto, unfolding(crate::specs::Statements::statement_slip_of))]
pub fn statement_slip(is_first: bool, line: &[u8]) -> Reply
    ensures { result.items ≡ statement_slip_of is_first line.now }
{
    let Some((name, text)) = take_word(line) else {
        return Reply::new();
    };
    if is_first {
        first_slip(name, text)
    } else {
        later_slip(name, text, line)
    }
}
