//! Texts of answers.

ghost use Rattle.iom_tool.specs.Room.{answer_room};
ghost use Rattle.std.specs.Prelude.{◌≡◌, ◌+◌, ◌*◌, ◌++◌, ◌≤◌, length, codes, take};
ghost use Rattle.hex.specs.Hex.{encode_lower};
ghost use Rattle.iom_bits.specs.Causes.{cause_number};
ghost use Rattle.iom_text.specs.Texts.{numeral, hexadecimal};
ghost use Rattle.iom_items.specs.Lines.{operand};

use hex::encode_to_slice;
use iom_bits::Cause;
use iom_text::{decimal, put_hex};
use iom_tool::{ANSWER_ROOM, Reply};

/// A reply that is this text, of at most `ANSWER_ROOM` bytes.
pub fn reply_of(text: &[u8]) -> Reply
    requires { length text.now ≤ answer_room }
    ensures { result.items ≡ text.now }
{
    let mut out = Reply::new();
    push_text(&mut out, text);
    out
}

/// Appends bytes, for which there is room.
#[inline(always)]
pub fn push_text(out: &mut Reply, text: &[u8])
    requires { length out.old.items + length text.now ≤ answer_room }
    ensures text { out.new.items ≡ out.old.items ++ text.now }
    ensures room { length out.new.items ≡ length out.old.items + length text.now }
{
    let _fits = out.try_extend_from_slice(text);
}

/// Appends a number as `0x` and hex digits in lower case, at most 18 bytes.
pub fn push_hexadecimal(out: &mut Reply, value: u64)
    requires { length out.old.items + 18 ≤ answer_room }
    ensures text { out.new.items ≡ out.old.items ++ hexadecimal value }
    ensures room { length out.new.items ≤ length out.old.items + 18 }
{
    let mut digits = [0; 16];
    let count = put_hex(&mut digits, value);
    push_text(out, b"0x");
    push_text(out, &digits[..count]);
}

/// Appends a blank, a key, `=` and a number in hex.
#[inline(always)]
pub fn push_operand(out: &mut Reply, key: &[u8], value: u64)
    requires { length out.old.items + length key.now + 20 ≤ answer_room }
    ensures text { out.new.items ≡ out.old.items ++ operand key.now value }
    ensures room { length out.new.items ≤ length out.old.items + length key.now + 20 }
{
    push_text(out, b" ");
    push_text(out, key);
    push_text(out, b"=");
    push_hexadecimal(out, value);
}

/// Appends at most 64 bytes as hex digits in lower case, two for each.
pub fn push_bytes(out: &mut Reply, bytes: &[u8])
    requires few { length bytes.now ≤ 64 }
    requires room { length out.old.items + 128 ≤ answer_room }
    ensures text { out.new.items ≡ out.old.items ++ encode_lower bytes.now }
    ensures room { length out.new.items ≤ length out.old.items + 128 }
{
    let mut digits = [0; 128];
    let end = 2 * bytes.len();
    let _fits = encode_to_slice(bytes, &mut digits[..end]);
    push_text(out, &digits[..end]);
}

/// Appends a name and a number in decimal.
pub fn push_number(out: &mut Reply, name: &[u8], number: u64)
    requires { length out.old.items + length name.now + 20 ≤ answer_room }
    ensures text { out.new.items ≡ out.old.items ++ name.now ++ numeral 10 number }
    ensures room { length out.new.items ≤ length out.old.items + length name.now + 20 }
{
    push_text(out, name);
    push_text(out, decimal(number).as_slice());
}

// Appends the text of a denial: its cause in decimal.
fn push_denied(out: &mut Reply, cause: u16)
    requires { length out.old.items + 27 ≤ answer_room }
    ensures text { out.new.items ≡ out.old.items ++ codes "denied " ++ numeral 10 cause }
    ensures room { length out.new.items ≤ length out.old.items + 27 }
{
    push_number(out, b"denied ", u64::from(cause));
}

/// Appends the text of a denial by its cause.
pub fn push_cause(out: &mut Reply, cause: Cause)
    requires { length out.old.items + 27 ≤ answer_room }
    ensures text { out.new.items ≡ out.old.items ++ codes "denied " ++ numeral 10 (cause_number cause) }
    ensures room { length out.new.items ≤ length out.old.items + 27 }
{
    push_denied(out, cause.number());
}

/// Of a text what there is room for in an answer.
pub(crate) fn cut_to_room(text: &[u8]) -> Reply
    ensures { result.items ≡ take answer_room text.now }
{
    let mut out = Reply::new();
    push_cut(&mut out, text);
    out
}

/// Appends of a text what there is room for.
#[tactic(auto, using(crate::proofs::Bounds::cut_whole, crate::proofs::Bounds::cut_part))]
pub(crate) fn push_cut(out: &mut Reply, text: &[u8])
    ensures { out.new.items ≡ take answer_room (out.old.items ++ text.now) }
{
    let room = ANSWER_ROOM - out.len();
    if text.len() <= room {
        push_text(out, text);
    } else {
        push_text(out, &text[..room]);
    }
}
