//! What may be a name.

ghost use Rattle.std.specs.Prelude.{◌≡◌, ◌≤◌, length, map, true};
ghost use Rattle.std.specs.List.{list_all};
ghost use Rattle.iom_names.specs.Names.{begins_so, is_letter, is_name, is_name_byte, is_one_of, other_words};

use iom_tool::is_reserved;

/// How many bytes a name has at most.
pub const MOST_BYTES_OF_A_NAME: usize = 32;

// The names of items and of commands with their keys, and the words of lines that are about a script itself.
#[rattlefmt::skip]
const OTHER_WORDS: [&[u8]; 47] = [
    b"u64", b"cmd", b"fault", b"context", b"dir", b"pte", b"msi", b"vma", b"gvma", b"fence",
    b"iodir", b"av", b"page", b"pscv", b"pscid", b"gv", b"gscid", b"nl", b"s", b"wsi", b"pr", b"pw", b"data",
    b"addr", b"dv", b"did", b"cause", b"pid", b"pv", b"priv", b"ttyp", b"iotval", b"iotval2",
    b"dtf", b"custom", b"gmode", b"gppn", b"tav", b"mode", b"ppn", b"msimode",
    b"msippn", b"msimask", b"msipattern", b"flags", b"let", b"include",
];

// Whether a word is one of these.
fn is_one_of(words: &[&[u8]], word: &[u8]) -> bool
    ensures { result ≡ is_one_of (map (λ word. word.now) words.now) word.now }
{
    match words {
        [] => false,
        [first, more @ ..] => word == *first || is_one_of(more, word),
    }
}

// Whether a word is a name of an item or of a command, or a key, or a word of a line about the script itself.
#[tactic(auto, unfolding(crate::specs::Names::other_words))]
fn is_other_word(word: &[u8]) -> bool
    ensures { result ≡ is_one_of other_words word.now }
{
    is_one_of(&OTHER_WORDS, word)
}

// Whether a byte is a letter or `_`.
fn is_letter(c: u8) -> bool
    ensures { result ≡ is_letter c }
{
    matches!(c, b'A'..=b'Z' | b'a'..=b'z' | b'_')
}

// Whether a name may have a byte.
fn is_name_byte(c: u8) -> bool
    ensures { result ≡ is_name_byte c }
{
    is_letter(c) || c.is_ascii_digit()
}

/// Whether a word begins with a letter or `_`.
pub(crate) fn begins_so(word: &[u8]) -> bool
    ensures { result ≡ begins_so word.now }
{
    match word {
        [] => false,
        [first, ..] => is_letter(*first),
    }
}

/// Whether a name may have all bytes of a word.
pub(crate) fn has_name_bytes(word: &[u8]) -> bool
    ensures { result ≡ list_all is_name_byte word.now }
{
    word.iter().all(|c| is_name_byte(*c))
}

/// Whether a word may be a name: 1 to 32 bytes, a letter or `_` and then letters, digits and `_`; and no word of a line, name of a register
/// or of an item, key or bytes in hex.
#[tactic(auto, unfolding(crate::specs::Names::is_name))]
pub fn is_name(word: &[u8]) -> bool
    ensures name { result ≡ is_name word.now }
    ensures short { result ≡ true → length word.now ≤ 32 }
{
    word.len() <= MOST_BYTES_OF_A_NAME
        && begins_so(word)
        && has_name_bytes(word)
        && !(is_reserved(word) || is_other_word(word))
}
