//! The output for the summary of a script's accesses.

ghost use Rattle.std.specs.Prelude.{◌≡◌, ◌+◌, ◌*◌, ◌++◌, ◌∷◌, [], ◌≤◌, ◌==◌, List, false, true, codes, length, IfErr, OnOk, if◌then◌else◌};
ghost use Rattle.std.specs.List.{flat_map};
ghost use Rattle.std.specs.Io.KnownBytes.{Appends};
ghost use Rattle.iom_text.specs.Texts.{numeral};
ghost use Rattle.iom_reader.specs.Running.{is_write};
ghost use Rattle.iom_reader.specs.Watching.{write_failed};
ghost use Rattle.iom_debug.specs.Marks.{numbered_at};
ghost use Rattle.iom_explain.specs.Explaining.{counts_text, denied_text, lines_text, more_text, unsettled_counted};

use crate::text::put_decimal;
use iom_debug::{Marks, OutputPage, Summary, put, put_numbered, write_told};
use iom_reader::{RunFault, WatchedWriter};
use std::io::Write;

// Appends how many accesses were denied for a cause, if any was.
fn put_denied(out: &mut OutputPage, entry: (u16, u64))
    requires { length out.old.items ≤ 15000 }
    ensures text { out.new.items ≡ out.old.items ++ denied_text entry }
    ensures room { length out.new.items ≤ length out.old.items + 60 }
{
    let (cause, count) = entry;
    if count > 0 {
        put_decimal(out, b"denied ", u64::from(cause));
        put_decimal(out, b": ", count);
        put(out, b"\n");
    }
}

// Puts how many accesses there were, and for which causes how many were denied.
fn put_counts(out: &mut OutputPage, summary: &Summary)
    requires { length out.old.items ≡ 0 }
    ensures text { out.new.items ≡ out.old.items ++ (codes "accesses: " ++ numeral 10 summary.now.accesses ++ 10 ∷ []
        ++ (codes "granted: " ++ numeral 10 summary.now.granted ++ 10 ∷ [])) }
    ensures room { length out.new.items ≤ 100 }
{
    put_decimal(out, b"accesses: ", summary.accesses());
    put(out, b"\n");
    put_decimal(out, b"granted: ", summary.granted());
    put(out, b"\n");
}

// Writes for which causes how many accesses were denied, each cause by itself.
fn write_denied<W: Write>(
    denied: &[(u16, u64)],
    page: &mut OutputPage,
    writer: &mut WatchedWriter<'_, W>,
) -> Result<(), RunFault>
    requires { write_failed writer.old ≡ false }
    ensures ok { OnOk result (Appends (W.contents writer.old.inner.now) (W.contents writer.new.inner.now) (flat_map denied_text denied.now)) }
    ensures fault { IfErr result (λ fault. fault ≡ RunFault.Write) }
    ensures told { write_failed writer.new ≡ is_write result }
    ensures same_writer { writer.new.inner.ghost_name ≡ writer.old.inner.ghost_name }
{
    for cause in denied {
        page.clear();
        put_denied(page, *cause);
        write_told(writer, page.as_slice())?;
    }
    Ok(())
}

// Puts how many accesses the caches led, and how many were stale.
fn put_stale(out: &mut OutputPage, summary: &Summary)
    requires { length out.old.items ≡ 0 }
    ensures text { out.new.items ≡ out.old.items ++ (codes "from the caches: " ++ numeral 10 summary.now.cached ++ 10 ∷ []
        ++ (codes "stale: " ++ numeral 10 summary.now.stale)) }
    ensures room { length out.new.items ≤ 100 }
{
    put_decimal(out, b"from the caches: ", summary.cached());
    put(out, b"\n");
    put_decimal(out, b"stale: ", summary.stale());
}

// Appends a number after a comma.
fn put_more(out: &mut OutputPage, marks: &Marks, number: u64)
    requires { length out.old.items ≤ 15000 }
    ensures text { out.new.items ≡ out.old.items ++ more_text marks.now number }
    ensures room { length out.new.items ≤ length out.old.items + 2082 }
{
    put(out, b", ");
    put_numbered(out, marks, number);
}

// Writes numbers, each after a comma.
fn write_more<W: Write>(
    numbers: &[u64],
    marks: &Marks,
    page: &mut OutputPage,
    writer: &mut WatchedWriter<'_, W>,
) -> Result<(), RunFault>
    requires { write_failed writer.old ≡ false }
    ensures ok { OnOk result (Appends (W.contents writer.old.inner.now) (W.contents writer.new.inner.now)
        (flat_map (more_text marks.now) numbers.now)) }
    ensures fault { IfErr result (λ fault. fault ≡ RunFault.Write) }
    ensures told { write_failed writer.new ≡ is_write result }
    ensures same_writer { writer.new.inner.ghost_name ≡ writer.old.inner.ghost_name }
{
    for number in numbers {
        page.clear();
        put_more(page, marks, *number);
        write_told(writer, page.as_slice())?;
    }
    Ok(())
}

// Puts the first of the numbers of lines, of which there are more or not.
fn put_first(out: &mut OutputPage, marks: &Marks, first: u64, is_only: bool)
    requires { length out.old.items ≡ 0 }
    ensures text { out.new.items ≡ out.old.items ++ ((if is_only then codes " (line " else codes " (lines ") ++ numbered_at marks.now first) }
    ensures room { length out.new.items ≤ 2100 }
{
    if is_only {
        put(out, b" (line ");
    } else {
        put(out, b" (lines ");
    }
    put_numbered(out, marks, first);
}

// Writes the numbers of lines, and a line end.
fn write_lines<W: Write>(
    lines: &[u64],
    marks: &Marks,
    page: &mut OutputPage,
    writer: &mut WatchedWriter<'_, W>,
) -> Result<(), RunFault>
    requires { write_failed writer.old ≡ false }
    ensures ok { OnOk result (Appends (W.contents writer.old.inner.now) (W.contents writer.new.inner.now) (lines_text marks.now lines.now)) }
    ensures fault { IfErr result (λ fault. fault ≡ RunFault.Write) }
    ensures told { write_failed writer.new ≡ is_write result }
    ensures same_writer { writer.new.inner.ghost_name ≡ writer.old.inner.ghost_name }
{
    let [first, more @ ..] = lines else {
        return write_told(writer, b"\n");
    };
    page.clear();
    put_first(page, marks, *first, more.is_empty());
    write_told(writer, page.as_slice())?;
    write_more(more, marks, page, writer)?;
    write_told(writer, b")\n")
}

// Writes how the accesses went but for settledness.
fn write_counts<W: Write>(
    summary: &Summary,
    marks: &Marks,
    page: &mut OutputPage,
    writer: &mut WatchedWriter<'_, W>,
) -> Result<(), RunFault>
    requires { write_failed writer.old ≡ false }
    ensures ok { OnOk result (Appends (W.contents writer.old.inner.now) (W.contents writer.new.inner.now) (counts_text marks.now summary.now)) }
    ensures fault { IfErr result (λ fault. fault ≡ RunFault.Write) }
    ensures told { write_failed writer.new ≡ is_write result }
    ensures same_writer { writer.new.inner.ghost_name ≡ writer.old.inner.ghost_name }
{
    page.clear();
    put_counts(page, summary);
    write_told(writer, page.as_slice())?;
    write_denied(summary.denied(), page, writer)?;
    page.clear();
    put_stale(page, summary);
    write_told(writer, page.as_slice())?;
    write_lines(summary.stale_lines(), marks, page, writer)
}

// Puts how many accesses weren't settled.
fn put_unsettled(out: &mut OutputPage, summary: &Summary)
    requires { length out.old.items ≡ 0 }
    ensures text { out.new.items ≡ out.old.items ++ (codes "unsettled: " ++ numeral 10 summary.now.unsettled) }
    ensures room { length out.new.items ≤ 100 }
{
    put_decimal(out, b"unsettled: ", summary.unsettled());
}

// Writes how many accesses weren't settled, and their lines.
fn write_unsettled<W: Write>(
    summary: &Summary,
    marks: &Marks,
    page: &mut OutputPage,
    writer: &mut WatchedWriter<'_, W>,
) -> Result<(), RunFault>
    requires { write_failed writer.old ≡ false }
    ensures ok { OnOk result (Appends (W.contents writer.old.inner.now) (W.contents writer.new.inner.now)
        (unsettled_counted marks.now true summary.now)) }
    ensures fault { IfErr result (λ fault. fault ≡ RunFault.Write) }
    ensures told { write_failed writer.new ≡ is_write result }
    ensures same_writer { writer.new.inner.ghost_name ≡ writer.old.inner.ghost_name }
{
    page.clear();
    put_unsettled(page, summary);
    write_told(writer, page.as_slice())?;
    write_lines(summary.unsettled_lines(), marks, page, writer)
}

/// Writes how the accesses went, and, if settledness is followed, which weren't settled. The fault is `Write`.
pub fn write_summary<W: Write>(
    summary: &Summary,
    marks: &Marks,
    tells_settled: bool,
    page: &mut OutputPage,
    writer: &mut WatchedWriter<'_, W>,
) -> Result<(), RunFault>
    requires { write_failed writer.old ≡ false }
    ensures ok { OnOk result (Appends (W.contents writer.old.inner.now) (W.contents writer.new.inner.now)
        (counts_text marks.now summary.now ++ unsettled_counted marks.now tells_settled summary.now)) }
    ensures fault { IfErr result (λ fault. fault ≡ RunFault.Write) }
    ensures told { write_failed writer.new ≡ is_write result }
    ensures same_writer { writer.new.inner.ghost_name ≡ writer.old.inner.ghost_name }
{
    write_counts(summary, marks, page, writer)?;
    if tells_settled {
        write_unsettled(summary, marks, page, writer)
    } else {
        Ok(())
    }
}
