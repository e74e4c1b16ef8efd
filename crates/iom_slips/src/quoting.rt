//! How a word is quoted.

ghost use Rattle.iom_tool.specs.Room.{answer_room};
ghost use Rattle.std.specs.Prelude.{◌≡◌, ◌+◌, ◌*◌, ◌++◌, ◌∷◌, [], ◌≤◌, length, take, codes};
ghost use Rattle.hex.specs.Hex.{encode_lower};
ghost use Rattle.iom_slips.specs.Quoting.{ending, escaped, quoted, shown};

use hex::encode_to_slice;
use iom_tool::Reply;

/// How many bytes of a word are quoted.
const MOST_TOLD: usize = 32;

/// Appends bytes, for which there is room.
pub fn push_text(out: &mut Reply, text: &[u8])
    requires { length out.old.items + length text.now ≤ answer_room }
    ensures text { out.new.items ≡ out.old.items ++ text.now }
    ensures room { length out.new.items ≡ length out.old.items + length text.now }
{
    let _fits = out.try_extend_from_slice(text);
}

/// A reply that is this text, of at most `ANSWER_ROOM` bytes.
pub fn reply_of(text: &[u8]) -> Reply
    requires { length text.now ≤ answer_room }
    ensures { result.items ≡ text.now }
{
    let mut out = Reply::new();
    push_text(&mut out, text);
    out
}

// Appends a byte in hex.
fn push_hex(out: &mut Reply, byte: u8)
    requires { length out.old.items + 4 ≤ answer_room }
    ensures text { out.new.items ≡ out.old.items ++ (codes "\\x" ++ encode_lower (byte ∷ [])) }
    ensures room { length out.new.items ≤ length out.old.items + 4 }
{
    let mut digits = [0; 2];
    let _fits = encode_to_slice(&[byte], &mut digits);
    push_text(out, b"\\x");
    push_text(out, &digits);
}

// Appends a byte, escaped where it isn't printable.
#[tactic(auto, unfolding(crate::specs::Quoting::shown))]
fn push_shown(out: &mut Reply, byte: u8)
    requires { length out.old.items + 4 ≤ answer_room }
    ensures text { out.new.items ≡ out.old.items ++ shown byte }
    ensures room { length out.new.items ≤ length out.old.items + 4 }
{
    match byte {
        b'\t' => push_text(out, b"\\t"),
        b'\n' => push_text(out, b"\\n"),
        b'\r' => push_text(out, b"\\r"),
        b'"' | b'\'' | b'\\' => push_text(out, &[b'\\', byte]),
        b' '..=b'~' => push_text(out, &[byte]),
        _ => push_hex(out, byte),
    }
}

// Appends bytes, those that aren't printable escaped: four bytes each at most.
fn push_escaped(out: &mut Reply, text: &[u8])
    requires { length out.old.items + 4 * length text.now ≤ answer_room }
    ensures text { out.new.items ≡ out.old.items ++ escaped text.now }
    ensures room { length out.new.items ≤ length out.old.items + 4 * length text.now }
{
    for byte in text {
        push_shown(out, *byte);
    }
}

// The first bytes of a word, which are quoted.
fn first_bytes(word: &[u8]) -> &[u8]
    ensures bytes { result.now ≡ take 32 word.now }
    ensures short { length result.now ≤ 32 }
{
    let count = word.len().min(MOST_TOLD);
    &word[..count]
}

// What is said behind them.
fn ending(word: &[u8]) -> &'static [u8]
    ensures text { result.now ≡ ending word.now }
    ensures short { length result.now ≤ 3 }
{
    if word.len() > MOST_TOLD {
        b"..\""
    } else {
        b"\""
    }
}

/// Appends a word between quotes: its first 32 bytes, escaped, at most 132 bytes in all.
#[tactic(auto, unfolding(crate::specs::Quoting::quoted))]
pub fn push_quoted(out: &mut Reply, word: &[u8])
    requires { length out.old.items + 132 ≤ answer_room }
    ensures text { out.new.items ≡ out.old.items ++ quoted word.now }
    ensures room { length out.new.items ≤ length out.old.items + 132 }
{
    push_text(out, b"\"");
    push_escaped(out, first_bytes(word));
    push_text(out, ending(word));
}

/// A word between quotes, and a text of at most 64 bytes behind it.
pub fn quoted_with(word: &[u8], text: &[u8]) -> Reply
    requires { length text.now ≤ 64 }
    ensures text { result.items ≡ quoted word.now ++ text.now }
    ensures room { length result.items ≤ 132 + length text.now }
{
    let mut out = Reply::new();
    push_quoted(&mut out, word);
    push_text(&mut out, text);
    out
}
