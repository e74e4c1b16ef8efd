//! Numbers in place of names.

ghost use Rattle.std.specs.Prelude.{◌≡◌, ◌==◌, ◌+◌, ◌++◌, ◌<◌, ◌≤◌, IfSome, bytes_eq, codes, false, length, true};
ghost use Rattle.std.specs.List.{position};
ghost use Rattle.iom_text.specs.Texts.{hexadecimal};
ghost use Rattle.iom_text.specs.Words.{words_of};
ghost use Rattle.iom_names.specs.Computing.{number_of};
ghost use Rattle.iom_names.specs.Names.{place_of, replaced, value_at, with_numbers};

use crate::names::Binding;
use arrayvec::ArrayVec;
use iom_text::{hexadecimal, take_word};

/// Room for a line: 512 bytes.
pub type LineText = ArrayVec<u8, 512>;

// Whether a name is this word.
fn is_named(binding: &Binding, word: &[u8]) -> bool
    ensures { result ≡ bytes_eq binding.now.name.items word.now }
{
    binding.name.as_slice() == word
}

/// The number of a name; None if there is no such name.
pub fn number_of(names: &[Binding], word: &[u8]) -> Option<u64>
    ensures { result ≡ number_of names.now word.now }
{
    match names {
        [] => None,
        [first, more @ ..] => {
            if word == first.name.as_slice() {
                Some(first.number)
            } else {
                number_of(more, word)
            }
        }
    }
}

/// The place of a name; None if there is no such name.
pub fn place_of(names: &[Binding], word: &[u8]) -> Option<usize>
    ensures place { result ≡ place_of names.now word.now }
    ensures inside { IfSome result (λ at. at < length names.now) }
{
    names.iter().position(|binding| is_named(binding, word))
}

// The place of the first `=`.
fn equals_at(word: &[u8]) -> Option<usize>
    ensures place { result ≡ position (λ c. c == 61) word.now }
    ensures inside { IfSome result (λ at. at < length word.now) }
{
    word.iter().position(|c| *c == b'=')
}

// Where the value of a word `key=value` begins; 0 of any other.
fn value_at(word: &[u8]) -> usize
    ensures place { result ≡ value_at word.now }
    ensures inside { result ≤ length word.now }
{
    match equals_at(word) {
        Some(at) => at + 1,
        None => 0,
    }
}

// Appends a text, and answers whether there was room.
fn put(out: &mut LineText, text: &[u8]) -> bool
    ensures some { result ≡ true → out.new.items ≡ out.old.items ++ text.now }
    ensures none { result ≡ false → 512 < length out.old.items + length text.now }
{
    out.try_extend_from_slice(text).is_ok()
}

// Appends a key with its `=`, and a number; and answers whether there was room.
fn put_number(out: &mut LineText, key: &[u8], number: u64) -> bool
    ensures some { result ≡ true → out.new.items ≡ out.old.items ++ (key.now ++ hexadecimal number) }
    ensures none { result ≡ false → 512 < length out.old.items + length (key.now ++ hexadecimal number) }
{
    put(out, key) && put(out, hexadecimal(number).as_slice())
}

// Appends a word, or the number in place of the name; and answers whether there was room.
fn put_replaced(out: &mut LineText, names: &[Binding], word: &[u8]) -> bool
    ensures some { result ≡ true → out.new.items ≡ out.old.items ++ replaced names.now word.now }
    ensures none { result ≡ false → 512 < length out.old.items + length (replaced names.now word.now) }
{
    let at = value_at(word);
    match number_of(names, &word[at..]) {
        Some(number) => put_number(out, &word[..at], number),
        None => put(out, word),
    }
}

// Appends a blank, and the word or the number in place of the name; and answers whether there was room.
fn put_word(out: &mut LineText, names: &[Binding], word: &[u8]) -> bool
    ensures some { result ≡ true → out.new.items ≡ out.old.items ++ (codes " " ++ replaced names.now word.now) }
    ensures none { result ≡ false → 512 < length out.old.items + length (codes " " ++ replaced names.now word.now) }
{
    put(out, b" ") && put_replaced(out, names, word)
}

/// Appends the words of a text, with numbers in place of names, a blank before each; and answers whether there was room.
pub fn put_with_numbers(out: &mut LineText, names: &[Binding], text: &[u8]) -> bool
    ensures some { result ≡ true → out.new.items ≡ out.old.items ++ with_numbers names.now (words_of text.now) }
    ensures none { result ≡ false → 512 < length out.old.items + length (with_numbers names.now (words_of text.now)) }
{
    match take_word(text) {
        None => true,
        Some((word, rest)) => put_word(out, names, word) && put_with_numbers(out, names, rest),
    }
}
