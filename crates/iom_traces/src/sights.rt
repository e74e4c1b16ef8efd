//! What was seen of a line, by its comment.

ghost use Rattle.std.specs.Prelude.{◌≡◌, ◌+◌, ◌-◌, ◌≤◌, ◌<◌, ◌==◌, ◌&&◌, [], bytes_eq, codes, get_or, length, map, nat_le, IfSome, IsTrue};
ghost use Rattle.std.specs.Option.{option_map};
ghost use Rattle.iom_text.specs.Words.{words_of};
ghost use Rattle.iom_tool.specs.Texts.{text_of};
ghost use Rattle.iom_traces.specs.Sights.{IfSaw, IsAnswerTold, IsSeen, IsSight};

use arrayvec::ArrayVec;
use iom_core::Answer;
use iom_judge::Seen;
use iom_text::{number, words};
use iom_tool::{answer_text, put_bytes_of};

/// What a comment says was seen.
#[derive(Drop)]
pub enum Sight {
    /// There is none.
    Nothing,
    /// This was seen.
    Saw(Seen),
    /// It can't be read.
    Unclear,
}

// Whether the last word but one is `at`.
fn tells_where(words: &[&[u8]]) -> bool
    ensures { let all = map (λ word. word.now) words.now in
        result ≡ (nat_le 2 (length all) && bytes_eq (get_or all (length all - 2) []) (codes "at")) }
{
    words.len() >= 2 && word_at(words, words.len() - 2) == b"at".as_slice()
}

// A word of these; empty where there is none.
fn word_at<'w>(words: &[&'w [u8]], i: usize) -> &'w [u8]
    ensures { result.now ≡ get_or (map (λ word. word.now) words.now) i [] }
{
    if i < words.len() { words[i] } else { b"" }
}

// Whether two lists of words are the same one or two.
fn same_words(told: &[&[u8]], words: &[&[u8]]) -> bool
    ensures { let own = map (λ word. word.now) told.now in let all = map (λ word. word.now) words.now in
        result ≡ (nat_le (length own) 2 && (length own == length all && (bytes_eq (get_or own 0 []) (get_or all 0 []) && bytes_eq (get_or own 1 []) (get_or all 1 [])))) }
{
    told.len() <= 2
        && told.len() == words.len()
        && word_at(told, 0) == word_at(words, 0)
        && word_at(told, 1) == word_at(words, 1)
}

// Whether these words tell an answer.
fn do_tell(words: &[&[u8]], answer: &Answer) -> bool
    ensures told { IsTrue result → map (λ word. word.now) words.now ≡ words_of (text_of answer.now) }
    ensures few { IsTrue result → length words.now ≤ 2 }
{
    let text = answer_text(answer);
    same_words(&iom_text::words(text.as_slice()), words)
}

// The answer that a number in hex or bytes in hex may be.
fn value_of(word: &[u8]) -> Option<Answer> {
    if let Some(value) = number(word)
        && matches!(word, [b'0', b'x', ..])
    {
        return Some(Answer::Value(value));
    }
    let mut bytes = ArrayVec::new();
    if put_bytes_of(word, &mut bytes) {
        Some(Answer::Bytes(bytes))
    } else {
        None
    }
}

// The answer that one word may be.
fn answer_of_word(word: &[u8]) -> Option<Answer> {
    match word {
        b"done" => Some(Answer::Done),
        b"idle" => Some(Answer::Idle),
        b"misuse" => Some(Answer::Misuse),
        _ => value_of(word),
    }
}

// The denial of this cause.
fn denied(cause: &[u8]) -> Option<Answer> {
    match number(cause) {
        Some(cause) if cause < 0x10000 => Some(Answer::Denied(cause as u16)),
        _ => None,
    }
}

// The answer that words may be.
fn answer_of(words: &[&[u8]]) -> Option<Answer> {
    match words {
        [word] => answer_of_word(word),
        [b"denied", cause] => denied(cause),
        [b"bus", b"error"] => Some(Answer::BusError),
        [b"bad", b"access"] => Some(Answer::BadAccess),
        [b"no", b"device"] => Some(Answer::NoDevice),
        _ => None,
    }
}

// The answer that words tell; None if they tell none.
fn answer_told(words: &[&[u8]]) -> Option<Answer>
    ensures { IfSome result (λ answer. (map (λ word. word.now) words.now ≡ words_of (text_of answer)) × (length words.now ≤ 2)) }
{
    match answer_of(words) {
        Some(answer) if do_tell(words, &answer) => Some(answer),
        _ => None,
    }
}

// The answer that was seen, by these words; None if they tell none.
fn seen_answer(words: &[&[u8]]) -> Option<Option<Answer>>
    ensures { IfSome result (λ answer. IsAnswerTold (map (λ word. word.now) words.now) answer × (length words.now ≤ 2)) }
{
    if words.is_empty() {
        return Some(None);
    }
    match answer_told(words) {
        Some(answer) => Some(Some(answer)),
        None => None,
    }
}

// What was seen by the words of an answer, with this address.
fn seen_of(answer: &[&[u8]], addr: Option<u64>) -> Sight
    ensures { IfSaw result (λ seen. IsAnswerTold (map (λ word. word.now) answer.now) seen.answer × (length answer.now ≤ 2) × (seen.addr ≡ addr)) }
{
    match seen_answer(answer) {
        Some(answer) => Sight::Saw(Seen { answer, addr }),
        None => Sight::Unclear,
    }
}

// What was seen by these words, of which the last two are `at` and a number.
fn sight_at(words: &[&[u8]], i: usize) -> Sight
    requires at { get_or (map (λ word. word.now) words.now) i [] ≡ codes "at" }
    requires last { i + 2 ≡ length words.now }
    ensures { IfSaw result (λ seen. IsSeen (map (λ word. word.now) words.now) seen × (length words.now < 11)) }
{
    match number(word_at(words, i + 1)) {
        Some(addr) => seen_of(&words[..i], Some(addr)),
        None => Sight::Unclear,
    }
}

// What was seen by these words.
fn sight_in(words: &[&[u8]]) -> Sight
    ensures { IfSaw result (λ seen. IsSeen (map (λ word. word.now) words.now) seen × (length words.now < 11)) }
{
    if tells_where(words) {
        sight_at(words, words.len() - 2)
    } else {
        seen_of(words, None)
    }
}

/// What was seen of a line with this wish: the text of its comment behind `=>`.
pub fn sight_of(wish: Option<&[u8]>) -> Sight
    ensures { IsSight (option_map (λ wish. wish.now) wish.entry) result }
{
    match wish {
        Some(wish) => sight_in(&words(wish)),
        None => Sight::Nothing,
    }
}
