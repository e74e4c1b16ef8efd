//! Texts are written with few calls of a writer.

ghost use Rattle.std.specs.Prelude.{◌≡◌, ◌<◌, length, is_err, false, true, IfErr, OnErr, OnOk};
ghost use Rattle.std.specs.Io.KnownBytes.{Appends, Keeps};
ghost use Rattle.iom_reader.specs.Running.{WritesFront};
ghost use Rattle.iom_reader.specs.Watching.{write_failed, is_flushed};

use crate::fault::RunFault;
use crate::watched::WatchedWriter;
use std::io::Write;

/// Writes a text with as few calls of the writer as it needs: one if the writer takes it whole. The fault is `Write`.
#[inline(always)]
pub fn write_out<W: Write>(writer: &mut WatchedWriter<'_, W>, text: &[u8]) -> Result<(), RunFault>
    requires can { write_failed writer.old ≡ false }
    requires some { 0 < length text.now }
    ensures ok { OnOk result (Appends (W.contents writer.old.inner.now) (W.contents writer.new.inner.now) text.now) }
    ensures front { OnErr result (WritesFront (W.contents writer.old.inner.now) (W.contents writer.new.inner.now) text.now) }
    ensures fault { IfErr result (λ fault. fault ≡ RunFault.Write) }
    ensures told { write_failed writer.new ≡ is_err result }
    ensures same_writer { writer.new.inner.ghost_name ≡ writer.old.inner.ghost_name }
{
    match writer.write(text) {
        Some(count) if count == text.len() => Ok(()),
        Some(count) => write_rest(writer, &text[count..]),
        None => Err(RunFault::Write),
    }
}

// Writes the rest of a text, with as many calls as the writer needs. The fault is `Write`.
#[inline(never)]
fn write_rest<W: Write>(writer: &mut WatchedWriter<'_, W>, text: &[u8]) -> Result<(), RunFault>
    requires { write_failed writer.old ≡ false }
    ensures ok { OnOk result (Appends (W.contents writer.old.inner.now) (W.contents writer.new.inner.now) text.now) }
    ensures front { OnErr result (WritesFront (W.contents writer.old.inner.now) (W.contents writer.new.inner.now) text.now) }
    ensures fault { IfErr result (λ fault. fault ≡ RunFault.Write) }
    ensures told { write_failed writer.new ≡ is_err result }
    ensures same_writer { writer.new.inner.ghost_name ≡ writer.old.inner.ghost_name }
{
    let mut rest = text;
    while !rest.is_empty() {
        match writer.write(rest) {
            Some(count) => rest = &rest[count..],
            None => return Err(RunFault::Write),
        }
    }
    Ok(())
}

/// Flushes the writer. The fault is `Write`.
pub fn flush<W: Write>(writer: &mut WatchedWriter<'_, W>) -> Result<(), RunFault>
    requires { write_failed writer.old ≡ false }
    ensures kept { Keeps (W.contents writer.old.inner.now) (W.contents writer.new.inner.now) }
    ensures fault { IfErr result (λ fault. fault ≡ RunFault.Write) }
    ensures told { write_failed writer.new ≡ is_err result }
    ensures flushed { OnOk result (is_flushed writer.new ≡ true) }
    ensures same_writer { writer.new.inner.ghost_name ≡ writer.old.inner.ghost_name }
{
    if writer.flush() {
        Ok(())
    } else {
        Err(RunFault::Write)
    }
}
