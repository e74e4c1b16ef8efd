//! The output for a line or a step, put together before it is written at once.

ghost use Rattle.std.specs.Prelude.{◌≡◌, ◌+◌, ◌*◌, ◌++◌, ◌∷◌, [], ◌≤◌, length, take, codes, false, IfErr, OnErr, OnOk};
ghost use Rattle.std.specs.Io.KnownBytes.{Appends};
ghost use Rattle.hex.specs.Hex.{encode_lower};
ghost use Rattle.iom_text.specs.Texts.{numeral};
ghost use Rattle.iom_reader.specs.Running.{WritesFront, is_write};
ghost use Rattle.iom_reader.specs.Watching.{write_failed};
ghost use Rattle.iom_debug.specs.Escaping.{escaped, shown};
ghost use Rattle.iom_debug.specs.Telling.{slip_text};

use arrayvec::ArrayVec;
use hex::encode_to_slice;
use iom_reader::{RunFault, WatchedWriter, write_out};
use iom_text::decimal;
use std::io::Write;

/// How many bytes of a line are kept: one more than a line may have.
const KEPT: usize = 513;

/// Room for it.
pub type OutputPage = ArrayVec<u8, 36864>;

/// Appends bytes, for which there is room.
#[inline(always)]
pub fn put(out: &mut OutputPage, text: &[u8])
    requires { length out.old.items + length text.now ≤ 36864 }
    ensures text { out.new.items ≡ out.old.items ++ text.now }
    ensures room { length out.new.items ≡ length out.old.items + length text.now }
{
    let _fits = out.try_extend_from_slice(text);
}

/// Appends a number in decimal, at most 20 bytes.
pub fn put_number(out: &mut OutputPage, number: u64)
    requires { length out.old.items + 20 ≤ 36864 }
    ensures text { out.new.items ≡ out.old.items ++ numeral 10 number }
    ensures room { length out.new.items ≤ length out.old.items + 20 }
{
    put(out, decimal(number).as_slice());
}

// Appends a byte in hex.
fn put_hex(out: &mut OutputPage, byte: u8)
    requires { length out.old.items + 4 ≤ 36864 }
    ensures text { out.new.items ≡ out.old.items ++ (codes "\\x" ++ encode_lower (byte ∷ [])) }
    ensures room { length out.new.items ≤ length out.old.items + 4 }
{
    let mut digits = [0; 2];
    let _fits = encode_to_slice(&[byte], &mut digits);
    put(out, b"\\x");
    put(out, &digits);
}

// Appends a byte, escaped where it isn't printable.
#[tactic(auto, unfolding(crate::specs::Escaping::shown))]
fn put_shown(out: &mut OutputPage, byte: u8)
    requires { length out.old.items + 4 ≤ 36864 }
    ensures text { out.new.items ≡ out.old.items ++ shown byte }
    ensures room { length out.new.items ≤ length out.old.items + 4 }
{
    match byte {
        b'\t' => put(out, b"\\t"),
        b'\n' => put(out, b"\\n"),
        b'\r' => put(out, b"\\r"),
        b'"' | b'\'' | b'\\' => put(out, &[b'\\', byte]),
        b' '..=b'~' => put(out, &[byte]),
        _ => put_hex(out, byte),
    }
}

/// Appends bytes, those that aren't printable escaped: four bytes each at most.
pub fn put_escaped(out: &mut OutputPage, text: &[u8])
    requires { length out.old.items + 4 * length text.now ≤ 36864 }
    ensures text { out.new.items ≡ out.old.items ++ escaped text.now }
    ensures room { length out.new.items ≤ length out.old.items + 4 * length text.now }
{
    for byte in text {
        put_shown(out, *byte);
    }
}

/// Appends the reason of a bad line behind its answer, as `: VALUE is missing`; nothing if it is empty.
pub fn put_slip(out: &mut OutputPage, slip: &[u8])
    requires { length out.old.items + length slip.now + 2 ≤ 36864 }
    ensures text { out.new.items ≡ out.old.items ++ slip_text slip.now }
    ensures room { length out.new.items ≤ length out.old.items + length slip.now + 2 }
{
    if !slip.is_empty() {
        put(out, b": ");
        put(out, slip);
    }
}

/// The first 513 bytes of a line, which decide its meaning.
pub fn first_bytes(line: &[u8]) -> &[u8]
    ensures bytes { result.now ≡ take 513 line.now }
    ensures short { length result.now ≤ 513 }
{
    let count = line.len().min(KEPT);
    &line[..count]
}

/// Writes a text if it isn't empty. The fault is `Write`.
#[tactic(auto, using(crate::proofs::Telling::nothing_written))]
pub fn write_told<W: Write>(writer: &mut WatchedWriter<'_, W>, text: &[u8]) -> Result<(), RunFault>
    requires { write_failed writer.old ≡ false }
    ensures ok { OnOk result (Appends (W.contents writer.old.inner.now) (W.contents writer.new.inner.now) text.now) }
    ensures front { OnErr result (WritesFront (W.contents writer.old.inner.now) (W.contents writer.new.inner.now) text.now) }
    ensures fault { IfErr result (λ fault. fault ≡ RunFault.Write) }
    ensures told { write_failed writer.new ≡ is_write result }
    ensures same_writer { writer.new.inner.ghost_name ≡ writer.old.inner.ghost_name }
{
    if text.is_empty() {
        return Ok(());
    }
    write_out(writer, text)
}
