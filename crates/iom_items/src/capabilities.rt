//! The operands of the statement `capabilities`.

ghost use Rattle.std.specs.Prelude.{◌≡◌, ◌<◌, ◌^◌, map, true, bit_or};
ghost use Rattle.iom_bits.specs.Features.{are_placed, rows};
ghost use Rattle.iom_bits.specs.Rows.{as_feature};
ghost use Rattle.iom_items.specs.Operands.{are_operands, is_one_of, operand_of};
ghost use Rattle.iom_items.specs.Capabilities.{bits_for, features_for, interrupts_for, interrupts_of, keys_of, vectors_for, vectors_of};

use crate::operands::{any_number, flag_for, has_key, is_given};
use iom_bits::{Features, Interrupts, ROWS, Row, Vectors};

// So many interrupt vectors; None of another number than 1, 2 and 4.
fn vectors_of(count: u64) -> Option<Vectors>
    ensures { result ≡ vectors_of count }
{
    match count {
        1 => Some(Vectors::One),
        2 => Some(Vectors::Two),
        4 => Some(Vectors::Four),
        _ => None,
    }
}

// The vectors that the operands say: one where they don't.
#[tactic(auto, unfolding(crate::specs::Capabilities::vectors_for, crate::specs::Operands::limited))]
fn vectors_for(words: &[&[u8]]) -> Option<Vectors>
    ensures { result ≡ vectors_for (map (λ word. word.now) words.now) }
{
    if !is_given(b"vectors", words) {
        return Some(Vectors::One);
    }
    vectors_of(any_number(b"vectors", words)?)
}

// This IGS; None of another number than 0, 1 and 2.
fn interrupts_of(igs: u64) -> Option<Interrupts>
    ensures { result ≡ interrupts_of igs }
{
    match igs {
        0 => Some(Interrupts::Messages),
        1 => Some(Interrupts::Wires),
        2 => Some(Interrupts::Choice),
        _ => None,
    }
}

// The IGS that the operands say: 1 where they don't.
#[tactic(auto, unfolding(crate::specs::Capabilities::interrupts_for, crate::specs::Operands::limited))]
fn interrupts_for(words: &[&[u8]]) -> Option<Interrupts>
    ensures { result ≡ interrupts_for (map (λ word. word.now) words.now) }
{
    if !is_given(b"igs", words) {
        return Some(Interrupts::Wires);
    }
    interrupts_of(any_number(b"igs", words)?)
}

// Whether a word has the name of a row for its key, or `vectors`, or `igs`, which no later word has.
fn is_feature_once(rows: &[Row], word: &[u8], later: &[&[u8]]) -> bool
    ensures { result
        ≡ is_one_of (keys_of (map as_feature rows.now)) (operand_of word.now) (map (λ word. word.now) later.now) }
{
    match rows {
        [] => {
            has_key(b"vectors", word) && !is_given(b"vectors", later)
                || has_key(b"igs", word) && !is_given(b"igs", later)
        }
        [first, rest @ ..] => {
            has_key(first.name, word) && !is_given(first.name, later)
                || is_feature_once(rest, word, later)
        }
    }
}

// Whether each word has the name of a row for its key, or `vectors`, or `igs`, and each key is given once at most.
fn are_of_rows(rows: &[Row], words: &[&[u8]]) -> bool
    ensures { result ≡ are_operands (keys_of (map as_feature rows.now)) (map (λ word. word.now) words.now) }
{
    match words {
        [] => true,
        [first, rest @ ..] => is_feature_once(rows, first, rest) && are_of_rows(rows, rest),
    }
}

// Whether these are operands of capabilities.
#[tactic(auto, unfolding(iom_bits::specs::Features::rows))]
fn are_of_features(words: &[&[u8]]) -> bool
    ensures { result ≡ are_operands (keys_of rows) (map (λ word. word.now) words.now) }
{
    are_of_rows(&ROWS, words)
}

// A word with one bit more.
fn with_bit(bit: u32, word: u64) -> u64
    requires { bit < 64 }
    ensures { result ≡ bit_or (2 ^ bit) word }
{
    (1 << bit) | word
}

// The bits of the rows whose operand is 1; None if one is neither 0 nor 1.
fn bits_of(rows: &[Row], words: &[&[u8]]) -> Option<u64>
    requires { are_placed (map as_feature rows.now) ≡ true }
    ensures { result ≡ bits_for (map as_feature rows.now) (map (λ word. word.now) words.now) }
{
    match rows {
        [] => Some(0),
        [row, rest @ ..] => {
            let is_set = flag_for(row.name, words)?;
            let others = bits_of(rest, words)?;
            Some(if is_set {
                with_bit(row.bit, others)
            } else {
                others
            })
        }
    }
}

// The bits of the features whose operand is 1; None if one is neither 0 nor 1.
#[tactic(auto, unfolding(iom_bits::specs::Features::rows))]
fn bits_for(words: &[&[u8]]) -> Option<u64>
    ensures { result ≡ bits_for rows (map (λ word. word.now) words.now) }
{
    bits_of(&ROWS, words)
}

/// What a machine offers whose capabilities have these operands, each feature by its name: Svnapot, and beside it what they say; an
/// operand that isn't given is 0, there is one vector, and interrupts go by wire (IGS 1). None if they are no such operands.
#[tactic(auto, using(crate::proofs::Capable::is_capable), unfolding(crate::specs::Capabilities::features_for))]
pub fn features_for(words: &[&[u8]]) -> Option<Features>
    ensures { result ≡ features_for (map (λ word. word.now) words.now) }
{
    if !are_of_features(words) {
        return None;
    }
    let bits = bits_for(words)?;
    let vectors = vectors_for(words)?;
    let interrupts = interrupts_for(words)?;
    Features::of_word(bits | (vectors.word() | interrupts.word()))
}
