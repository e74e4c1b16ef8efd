//! Operands `key=number`.

ghost use Rattle.std.specs.Prelude.{◌≡◌, ◌==◌, ◌<◌, ◌^◌, map, IfSome};
ghost use Rattle.std.specs.List.{position};
ghost use Rattle.std.specs.Option.{option_map};
ghost use Rattle.iom_items.specs.Operands.{operand_of, has_key, is_given, is_one_of, are_operands, value_of, limited, flag_for};

use iom_text::number;

/// A word `key=value`.
#[derive(Clone, Copy)]
pub struct Operand<'a> {
    /// What stands before its first `=`.
    pub key: &'a [u8],
    /// What stands behind it.
    pub value: &'a [u8],
}

fn equals_at(word: &[u8]) -> Option<usize>
    ensures { result ≡ position (λ c. c == 61) word.now }
{
    word.iter().position(|c| *c == b'=')
}

/// The key and the value of a word with `=`; None of any other.
#[tactic(auto, unfolding(crate::specs::Operands::operand_of))]
pub fn operand_of(word: &[u8]) -> Option<Operand<'_>>
    ensures { option_map (λ o. record { key = o.key.now; value = o.value.now }) result ≡ operand_of word.now }
{
    let at = equals_at(word)?;
    Some(Operand {
        key: &word[..at],
        value: &word[at + 1..],
    })
}

/// Whether a word is an operand with this key.
pub(crate) fn has_key(key: &[u8], word: &[u8]) -> bool
    ensures { result ≡ has_key key.now (operand_of word.now) }
{
    match operand_of(word) {
        Some(operand) => operand.key == key,
        None => false,
    }
}

/// Whether one of the words is an operand with this key.
pub fn is_given(key: &[u8], words: &[&[u8]]) -> bool
    ensures { result ≡ is_given key.now (map (λ word. word.now) words.now) }
{
    match words {
        [] => false,
        [first, rest @ ..] => has_key(key, first) || is_given(key, rest),
    }
}

// Whether a word has one of the keys, which no later word has.
fn is_one_of(keys: &[&[u8]], word: &[u8], later: &[&[u8]]) -> bool
    ensures { result
        ≡ is_one_of (map (λ key. key.now) keys.now) (operand_of word.now) (map (λ word. word.now) later.now) }
{
    match keys {
        [] => false,
        [first, rest @ ..] => {
            has_key(first, word) && !is_given(first, later) || is_one_of(rest, word, later)
        }
    }
}

/// Whether each word has one of these keys, and each key is given once at most.
pub fn are_operands(keys: &[&[u8]], words: &[&[u8]]) -> bool
    ensures { result ≡ are_operands (map (λ key. key.now) keys.now) (map (λ word. word.now) words.now) }
{
    match words {
        [] => true,
        [first, rest @ ..] => is_one_of(keys, first, rest) && are_operands(keys, rest),
    }
}

/// The number of the first operand with a key; 0 where there is none.
pub(crate) fn value_of(key: &[u8], words: &[&[u8]]) -> Option<u64>
    ensures { result ≡ value_of key.now (map (λ word. word.now) words.now) }
{
    match words {
        [] => Some(0),
        [first, rest @ ..] => match operand_of(first) {
            Some(operand) if operand.key == key => number(operand.value),
            _ => value_of(key, rest),
        },
    }
}

/// The number that is given for a key, if it is below a limit; 0 if the key is absent, and None if what is given is no such number.
#[tactic(auto, unfolding(crate::specs::Operands::limited))]
pub fn limited(key: &[u8], limit: u64, words: &[&[u8]]) -> Option<u64>
    ensures value { result ≡ limited key.now limit (map (λ word. word.now) words.now) }
    ensures below { IfSome result (λ n. n < limit) }
{
    let number = value_of(key, words)?;
    if number < limit { Some(number) } else { None }
}

/// The number below 2^64 that is given for a key; 0 if the key is absent, and None if what is given is no number.
#[tactic(auto, unfolding(crate::specs::Operands::limited))]
pub fn any_number(key: &[u8], words: &[&[u8]]) -> Option<u64>
    ensures below { result ≡ limited key.now (2 ^ 64) (map (λ word. word.now) words.now) }
    ensures value { result ≡ value_of key.now (map (λ word. word.now) words.now) }
{
    value_of(key, words)
}

/// The flag that is given for a key as 0 or 1; false if the key is absent, and None if what is given is neither.
#[tactic(auto, unfolding(crate::specs::Operands::flag_for))]
pub fn flag_for(key: &[u8], words: &[&[u8]]) -> Option<bool>
    ensures { result ≡ flag_for key.now (map (λ word. word.now) words.now) }
{
    Some(limited(key, 2, words)? == 1)
}
