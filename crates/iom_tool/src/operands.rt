//! The operands of a step's line, read from left to right.

ghost use Rattle.std.specs.Prelude.{◌≡◌, ◌∷◌, [], Some, IfSome, true};
ghost use Rattle.iom_text.specs.Words.{words_of};
ghost use Rattle.iom_tool.specs.Script.{all_say, Data, Number};
ghost use Rattle.iom_tool.specs.Values.{nothing, numbers_only, with_number};
ghost use Rattle.iom_tool.specs.Operands.{IsData};

use crate::data::put_bytes_of;
use arrayvec::ArrayVec;
use iom_text::{is_over, past_blanks, take_number, take_word};

/// The one number that a text is; None if it is anything else.
#[inline(always)]
#[tactic(auto, unfolding(crate::specs::Script::all_say))]
pub fn one(text: &[u8]) -> Option<u64>
    ensures { IfSome result (λ n. all_say (Number ∷ []) (words_of text.now) nothing ≡ Some (numbers_only (n ∷ []))) }
{
    let (value, rest) = take_number(text)?;
    if is_over(rest) { Some(value) } else { None }
}

/// The two numbers that a text is; None if it is anything else.
#[inline(always)]
#[tactic(auto, unfolding(crate::specs::Script::all_say))]
pub fn two(text: &[u8]) -> Option<(u64, u64)>
    ensures { IfSome result (λ it. all_say (Number ∷ Number ∷ []) (words_of text.now) nothing ≡ Some (numbers_only (it.0 ∷ it.1 ∷ []))) }
{
    let (first, rest) = take_number(text)?;
    let (second, rest) = take_number(rest)?;
    if is_over(rest) {
        Some((first, second))
    } else {
        None
    }
}

/// The three numbers that a text is; None if it is anything else.
#[inline(always)]
#[tactic(auto, unfolding(crate::specs::Script::all_say))]
pub fn three(text: &[u8]) -> Option<(u64, u64, u64)>
    ensures { IfSome result (λ it. all_say (Number ∷ Number ∷ Number ∷ []) (words_of text.now) nothing
        ≡ Some (numbers_only (it.0 ∷ it.1 ∷ it.2 ∷ []))) }
{
    let (first, rest) = take_number(text)?;
    let (second, rest) = take_number(rest)?;
    let (third, rest) = take_number(rest)?;
    if is_over(rest) {
        Some((first, second, third))
    } else {
        None
    }
}

/// The four numbers that a text is; None if it is anything else.
#[inline(always)]
#[tactic(auto, unfolding(crate::specs::Script::all_say))]
pub fn four(text: &[u8]) -> Option<(u64, u64, u64, u64)>
    ensures { IfSome result (λ it. all_say (Number ∷ Number ∷ Number ∷ Number ∷ []) (words_of text.now) nothing
        ≡ Some (numbers_only (it.0 ∷ it.1 ∷ it.2 ∷ it.3 ∷ []))) }
{
    let (first, rest) = take_number(text)?;
    let (second, rest) = take_number(rest)?;
    let (third, rest) = take_number(rest)?;
    let (fourth, rest) = take_number(rest)?;
    if is_over(rest) {
        Some((first, second, third, fourth))
    } else {
        None
    }
}

// Puts the bytes that the only word of a text writes, and answers whether it writes some.
#[inline(never)]
fn put_word_of_data(text: &[u8], bytes: &mut ArrayVec<u8, 64>) -> bool
    ensures { result ≡ true → IsData (words_of text.now) bytes.new.items }
{
    let Some((word, rest)) = take_word(text) else {
        return false;
    };
    is_over(rest) && put_bytes_of(word, bytes)
}

// As `put_word_of_data`. Data that is all of the line's rest needs no search for the end of the word.
#[inline(always)]
#[tactic(auto, using(crate::proofs::Forms::data_left))]
fn put_data_in(text: &[u8], bytes: &mut ArrayVec<u8, 64>) -> bool
    ensures { result ≡ true → IsData (words_of text.now) bytes.new.items }
{
    put_bytes_of(past_blanks(text), bytes) || put_word_of_data(text, bytes)
}

/// The two numbers of a text that is two numbers and 1 to 64 bytes, which are put in place of what `bytes` holds; None if it is anything
/// else, and then `bytes` may hold anything.
#[inline(always)]
#[tactic(auto, unfolding(crate::specs::Script::all_say))]
pub fn numbers_and_data(text: &[u8], bytes: &mut ArrayVec<u8, 64>) -> Option<(u64, u64)>
    ensures { IfSome result (λ it. all_say (Number ∷ Number ∷ Data ∷ []) (words_of text.now) nothing
        ≡ Some (record { numbers = it.0 ∷ it.1 ∷ []; bytes = bytes.new.items; items = [] })) }
{
    let (first, rest) = take_number(text)?;
    let (second, rest) = take_number(rest)?;
    if put_data_in(rest, bytes) {
        Some((first, second))
    } else {
        None
    }
}
