ghost use Rattle.std.specs.Prelude.{◌≡◌, ◌==◌, ◌<◌, ◌≤◌, [], ◌∷◌, length, not, take, drop, map, Some, SomeIff, IfSome, MatchOption, bytes_eq, codes};
ghost use Rattle.std.specs.Char.{digit_value};
ghost use Rattle.std.specs.List.{position, position_or_len};
ghost use Rattle.std.specs.Option.{option_map};
ghost use Rattle.iom_text.specs.Words.{is_blank, is_end, words_of, number_in, number, first_number};

use crate::values::digit_value;
use arrayvec::ArrayVec;

/// One word more than the longest line of a script or of an assembler text has.
pub const MOST_WORDS: usize = 15;

/// The first words of a line, at most fifteen: a line with more is refused.
pub type LineWords<'a> = ArrayVec<&'a [u8], 15>;

// Whether a byte separates words: a space, a tab or a CR.
#[inline(always)]
fn is_blank(c: u8) -> bool
    ensures { result ≡ is_blank c }
{
    matches!(c, b' ' | b'\t' | b'\r')
}

// Whether a byte ends a word: a blank, or the `#` of a comment.
#[inline(always)]
fn is_end(c: u8) -> bool
    ensures { result ≡ is_end c }
{
    matches!(c, b' ' | b'\t' | b'\r' | b'#')
}

// The index of the first byte that isn't a blank.
#[inline(always)]
fn word_at(text: &[u8]) -> Option<usize>
    ensures { result ≡ position (λ c. not (is_blank c)) text.now }
{
    text.iter().position(|c| !is_blank(*c))
}

// The index of the first byte that ends a word.
#[inline(always)]
fn end_at(text: &[u8]) -> Option<usize>
    ensures { result ≡ position is_end text.now }
{
    text.iter().position(|c| is_end(*c))
}

/// A text without the blanks at its beginning.
#[inline(always)]
pub fn past_blanks(text: &[u8]) -> &[u8]
    ensures { result.now ≡ drop (position_or_len (λ c. not (is_blank c)) text.now) text.now }
{
    match word_at(text) {
        Some(at) => &text[at..],
        None => &[],
    }
}

// A text, cut before the first byte that ends a word.
#[inline(always)]
fn at_end(text: &[u8]) -> (&[u8], &[u8])
    ensures before { result.0.now ≡ take (position_or_len is_end text.now) text.now }
    ensures after { result.1.now ≡ drop (position_or_len is_end text.now) text.now }
{
    match end_at(text) {
        Some(at) => text.split_at(at),
        None => (text, &[]),
    }
}

// The first word of a text, empty if there is none, and the rest after it.
#[inline(always)]
#[tactic(auto, using(crate::proofs::Cuts::none_of, crate::proofs::Cuts::some_of))]
fn first_word(text: &[u8]) -> (&[u8], &[u8])
    ensures none { length result.0.now ≡ 0 → words_of text.now ≡ [] }
    ensures some { 0 < length result.0.now → words_of text.now ≡ result.0.now ∷ words_of result.1.now }
{
    at_end(past_blanks(text))
}

/// The first word of a line and the rest after it; None if there is no word. A `#` begins a comment, even in the middle of a word.
#[inline(always)]
pub fn take_word(text: &[u8]) -> Option<(&[u8], &[u8])>
    ensures { MatchOption result (words_of text.now ≡ [])
        (λ cut. words_of text.now ≡ cut.0.now ∷ words_of cut.1.now) }
{
    let (word, rest) = first_word(text);
    if word.is_empty() {
        return None;
    }
    Some((word, rest))
}

/// Whether a line has no word.
#[inline(always)]
pub fn is_over(text: &[u8]) -> bool
    ensures { result ≡ (length (words_of text.now) == 0) }
{
    take_word(text).is_none()
}

/// The first words of a line, at most fifteen.
pub fn words(text: &[u8]) -> LineWords<'_>
    ensures { map (λ word. word.now) result.items ≡ take 15 (words_of text.now) }
{
    let mut words = LineWords::new();
    let mut rest = text;
    for _ in 0..MOST_WORDS {
        let (word, more) = first_word(rest);
        if word.is_empty() {
            break;
        }
        words.push(word);
        rest = more;
    }
    words
}

// The value of a digit in this radix; None if it is none.
#[inline(always)]
fn digit_in(radix: u64, c: u8) -> Option<u64>
    requires { radix ≤ 16 }
    ensures { SomeIff result (digit_value c < radix) (digit_value c) }
{
    let value = u64::from(digit_value(c));
    if value < radix { Some(value) } else { None }
}

// With at most this number of digits, in a radix up to 16, a number is below 2^64.
const SURE_DIGITS: usize = 16;

// The number that the first word of a text writes in digits of this radix, and the rest after it. With at most `SURE_DIGITS` digits
// it isn't tested against 2^64.
#[inline(always)]
fn take_digits(radix: u64, text: &[u8]) -> Option<(u64, &[u8])>
    requires least { 2 ≤ radix }
    requires most { radix ≤ 16 }
    ensures number { option_map (λ cut. cut.0) result
        ≡ number_in radix (take (position_or_len is_end text.now) text.now) }
    ensures rest { IfSome result (λ cut. cut.1.now ≡ drop (position_or_len is_end text.now) text.now) }
{
    let mut value: u64 = 0;
    for at in 0..text.len() {
        let Some(digit) = digit_in(radix, text[at]) else {
            if !is_end(text[at]) {
                return None;
            }
            if at == 0 {
                return None;
            }
            return cut_at(radix, text, value, at);
        };
        value = value.wrapping_mul(radix).wrapping_add(digit);
    }
    if text.is_empty() {
        return None;
    }
    cut_at(radix, text, value, text.len())
}

// The number of a word that ends at index `at`, and the rest after it. `value` is that number if the word has at most 16 digits.
#[inline(always)]
fn cut_at(radix: u64, text: &[u8], value: u64, at: usize) -> Option<(u64, &[u8])>
    requires least { 2 ≤ radix }
    requires most { radix ≤ 16 }
    requires here { at ≡ position_or_len is_end text.now }
    requires few { at ≤ 16 → Some value ≡ number_in radix (take (position_or_len is_end text.now) text.now) }
    ensures number { option_map (λ cut. cut.0) result
        ≡ number_in radix (take (position_or_len is_end text.now) text.now) }
    ensures rest { IfSome result (λ cut. cut.1.now ≡ drop (position_or_len is_end text.now) text.now) }
{
    if at <= SURE_DIGITS {
        return Some((value, &text[at..]));
    }
    let value = long_number(radix, text)?;
    Some((value, &text[at..]))
}

// As `take_many_digits`, without the rest.
#[cold]
#[inline(never)]
fn long_number(radix: u64, text: &[u8]) -> Option<u64>
    requires least { 2 ≤ radix }
    requires most { radix ≤ 16 }
    ensures { result ≡ number_in radix (take (position_or_len is_end text.now) text.now) }
{
    let (value, _) = take_many_digits(radix, text)?;
    Some(value)
}

// As `take_digits`, with a test against 2^64 at each digit.
fn take_many_digits(radix: u64, text: &[u8]) -> Option<(u64, &[u8])>
    requires least { 2 ≤ radix }
    requires most { radix ≤ 16 }
    ensures number { option_map (λ cut. cut.0) result
        ≡ number_in radix (take (position_or_len is_end text.now) text.now) }
    ensures rest { IfSome result (λ cut. cut.1.now ≡ drop (position_or_len is_end text.now) text.now) }
{
    let mut value: u64 = 0;
    for at in 0..text.len() {
        let Some(digit) = digit_in(radix, text[at]) else {
            if !is_end(text[at]) {
                return None;
            }
            if at == 0 {
                return None;
            }
            return Some((value, &text[at..]));
        };
        value = value.checked_mul(radix)?.checked_add(digit)?;
    }
    if text.is_empty() {
        return None;
    }
    Some((value, &[]))
}

// The number that a word writes in digits of this radix; None if it writes none below 2^64.
#[inline(always)]
fn number_in(radix: u64, word: &[u8]) -> Option<u64>
    requires least { 2 ≤ radix }
    requires most { radix ≤ 16 }
    ensures { result ≡ number_in radix word.now }
{
    let (value, rest) = take_digits(radix, word)?;
    if rest.is_empty() { Some(value) } else { None }
}

/// The number that a word writes: decimal digits, or hex digits of either case after `0x`; None if it writes none below 2^64.
#[tactic(auto, unfolding(crate::specs::Words::number))]
pub fn number(word: &[u8]) -> Option<u64>
    ensures { result ≡ number word.now }
{
    match word {
        [b'0', b'x', digits @ ..] => number_in(16, digits),
        _ => number_in(10, word),
    }
}

// Whether a text begins with `0x`.
#[inline(always)]
fn has_hex_prefix(text: &[u8]) -> bool
    ensures { result ≡ bytes_eq (take 2 text.now) (codes "0x") }
{
    matches!(text, [b'0', b'x', ..])
}

/// The number that the first word of a line writes, as `number` reads it, and the rest after that word; None if it writes none, or
/// there is no word.
#[inline(always)]
pub fn take_number(text: &[u8]) -> Option<(u64, &[u8])>
    ensures number { option_map (λ cut. cut.0) result ≡ first_number (words_of text.now) }
    ensures rest { IfSome result (λ cut. words_of cut.1.now ≡ drop 1 (words_of text.now)) }
{
    let word = past_blanks(text);
    if has_hex_prefix(word) {
        take_digits(16, &word[2..])
    } else {
        take_digits(10, word)
    }
}
