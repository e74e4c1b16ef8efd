//! What stands for lines.

ghost use Rattle.std.specs.Prelude.{◌≡◌, ◌<◌, ◌≤◌, ◌^◌, ◌+◌, ◌-◌, ◌++◌, ◌∷◌, ℕ, List, Some, [], length, true, false, IfErr, IfOk, IfSome, OnOk};
ghost use Rattle.std.specs.List.{flat_map};
ghost use Rattle.std.specs.Path.{path_buf_bytes};
ghost use Rattle.iom_include.specs.Faults.{AppendsFront, IfRefused, IsAmong, IsFaultOf, IsOver, Lacking, Names, line_ends};
ghost use Rattle.iom_include.specs.Including.{comment_of, file_of, name_at, said};
ghost use Rattle.iom_include.specs.Kept.{AreKept};
ghost use Rattle.iom_reader.specs.Lines.{ended_lines, lines_of};

use crate::fault::{IncludeFault, Reason, TextFault};
use crate::kept::{KeptTexts, text_at};
use crate::lines::{comment_of, cut, file_of};
use crate::texts::Texts;
use std::alloc::{AllocError, Global};
use std::path::{Path, PathBuf};
use std::str;

/// The most bytes that stand for a line.
const MOST_BYTES: usize = 1 << 26;

/// The most lines that stand for a line.
const MOST_LINES: u64 = 1 << 20;

/// What stands for lines, each with its line end.
#[derive(Drop)]
pub struct Expansion {
    /// Its bytes.
    pub text: Vec<u8>,
    /// How many lines they are.
    pub lines: u64,
}

/// Where texts come from.
#[derive(Drop)]
pub struct Source<'t, T> {
    /// What memory is allocated from.
    pub alloc: Global,
    /// The texts.
    pub texts: &'t T,
}

/// A line of a text.
#[derive(Clone, Copy)]
pub struct Place<'a> {
    /// The text's name.
    pub name: &'a str,
    /// The line, counted from 1.
    pub line: u64,
}

// The name of a file that a text names.
#[tactic(auto, unfolding(crate::specs::Including::name_at))]
fn name_at(alloc: Global, from: &str, file: &str) -> Result<PathBuf, AllocError>
    ensures { IfOk result (λ name. path_buf_bytes name ≡ name_at from.now file.now) }
{
    match Path::new(from).parent() {
        Some(folder) => folder.join(alloc, file),
        None => Path::new("").join(alloc, file),
    }
}

// The fault of a line.
fn refused(alloc: Global, at: Place<'_>, name: &str, reason: Reason) -> IncludeFault
    ensures { Names reason name.now at.entry.name.now result }
{
    match (
        String::from_str(alloc, name),
        String::from_str(alloc, at.name),
    ) {
        (Ok(name), Ok(from)) => IncludeFault::Refused {
            reason,
            name,
            from,
            line: at.line,
        },
        _ => IncludeFault::OutOfMemory,
    }
}

// Gives the last line of a text its end, if it lacks that.
fn close(text: &mut Vec<u8>) -> Result<(), AllocError>
    ensures { OnOk result (ended_lines text.new.items ≡ lines_of text.old.items) }
{
    let count = text.len();
    if count > 0 && text[count - 1] != b'\n' {
        text.push(b'\n').map_err(AllocError::from)?;
    }
    Ok(())
}

// The text of a name, whose last line has its end.
fn text_of<T: Texts>(
    source: &Source<'_, T>,
    kept: &mut KeptTexts,
    at: Place<'_>,
    name: &str,
) -> Result<Vec<u8>, IncludeFault>
    requires { AreKept (T.known source.now.texts.now) (T.gives source.now.texts.now) kept.old }
    ensures known { IfSome (T.known source.now.texts.now) (λ texts. IfOk result (λ text. ended_lines text.items ≡ lines_of (texts name.now))) }
    ensures given { IfOk result (λ text. (given : List ℕ) × T.gives source.now.texts.now name.now given × (ended_lines text.items ≡ lines_of given)) }
    ensures lacking { IfErr result (λ fault. Lacking (T.lacks source.now.texts.now) name.now at.entry.name.now fault) }
    ensures kept { OnOk result (AreKept (T.known source.now.texts.now) (T.gives source.now.texts.now) kept.new) }
{
    let reason = match text_at(source.texts, kept, source.alloc, name) {
        Ok(mut text) => {
            close(&mut text)?;
            return Ok(text);
        }
        Err(TextFault::OutOfMemory) => return Err(IncludeFault::OutOfMemory),
        Err(TextFault::Unreadable) => Reason::Unreadable,
        Err(TextFault::TooLong) => Reason::TooLong,
    };
    Err(refused(source.alloc, at, name, reason))
}

// Appends a line as it stands.
fn push_plain(line: &[u8], out: &mut Expansion) -> Result<(), IncludeFault>
    ensures said { OnOk result (out.new.text.items ≡ out.old.text.items ++ (line.now ++ 10 ∷ [])) }
    ensures counted { out.new.lines + line_ends out.old.text.items ≤ out.old.lines + line_ends out.new.text.items }
    ensures fault { IfErr result (λ fault. fault ≡ IncludeFault.OutOfMemory) }
{
    out.text.extend_from_slice(line)?;
    out.text.push(b'\n').map_err(AllocError::from)?;
    out.lines = out.lines.saturating_add(1);
    Ok(())
}

// Whether more stands for lines than a script may have.
fn is_too_long(out: &Expansion) -> bool
    ensures yes { result ≡ true → IsOver (length out.now.text.items) out.now.lines }
    ensures no { result ≡ false → (length out.now.text.items ≤ 2 ^ 26) × (out.now.lines ≤ 2 ^ 20) }
{
    out.text.len() > MOST_BYTES || out.lines > MOST_LINES
}

// Appends what stands for a line that includes a file, and has this comment.
#[cycle(push)]
fn push_text<T: Texts>(
    source: &Source<'_, T>,
    kept: &mut KeptTexts,
    depth: u64,
    at: Place<'_>,
    file: &[u8],
    comment: &[u8],
    out: &mut Expansion,
) -> Result<(), IncludeFault>
    requires { AreKept (T.known source.now.texts.now) (T.gives source.now.texts.now) kept.old }
    ensures deep { OnOk result (0 < depth) }
    ensures said { OnOk result (IfSome (T.known source.now.texts.now) (λ texts. out.new.text.items ≡ out.old.text.items
        ++ (flat_map (said texts (depth - 1) (name_at at.entry.name.now file.now)) (lines_of (texts (name_at at.entry.name.now file.now)))
        ++ (comment.now ++ 10 ∷ [])))) }
    ensures counted { out.new.lines + line_ends out.old.text.items ≤ out.old.lines + line_ends out.new.text.items }
    ensures front { (line : List ℕ) → Some file.now ≡ file_of line → comment.now ≡ comment_of line → IfErr result (λ fault. IfRefused fault
        (IfSome (T.known source.now.texts.now) (λ texts. AppendsFront out.old.text.items out.new.text.items (said texts depth at.entry.name.now line)))) }
    ensures within { OnOk result ((length out.new.text.items ≤ 2 ^ 26) × (out.new.lines ≤ 2 ^ 20)) }
    ensures fault { (line : List ℕ) → Some file.now ≡ file_of line → IfErr result (λ fault. IsFaultOf (T.gives source.now.texts.now) (T.lacks source.now.texts.now)
        depth at.entry.name.now line (IsOver (length out.new.text.items) out.new.lines) fault) }
    ensures kept { OnOk result (AreKept (T.known source.now.texts.now) (T.gives source.now.texts.now) kept.new) }
{
    let Ok(file) = str::from_utf8(file) else {
        return Err(refused(source.alloc, at, "?", Reason::Unreadable));
    };
    let name = name_at(source.alloc, at.name, file)?;
    if depth == 0 {
        return Err(refused(source.alloc, at, name.as_str(), Reason::TooDeep));
    }
    let text = text_of(source, kept, at, name.as_str())?;
    push_lines(source, kept, depth - 1, name.as_str(), text.as_slice(), out)?;
    push_plain(comment, out)?;
    if is_too_long(out) {
        return Err(refused(source.alloc, at, name.as_str(), Reason::TooLong));
    }
    Ok(())
}

/// Appends what stands for a line of a text, at most `depth` texts deep. A text that is kept isn't read again.
#[tactic(auto, using(crate::proofs::Depths::plain_said, crate::proofs::Depths::text_said))]
#[cycle(push)]
pub fn push_line<T: Texts>(
    source: &Source<'_, T>,
    kept: &mut KeptTexts,
    depth: u64,
    at: Place<'_>,
    line: &[u8],
    out: &mut Expansion,
) -> Result<(), IncludeFault>
    requires { AreKept (T.known source.now.texts.now) (T.gives source.now.texts.now) kept.old }
    ensures said { OnOk result (IfSome (T.known source.now.texts.now) (λ texts. out.new.text.items ≡ out.old.text.items
        ++ said texts depth at.entry.name.now line.now)) }
    ensures counted { out.new.lines + line_ends out.old.text.items ≤ out.old.lines + line_ends out.new.text.items }
    ensures front { IfErr result (λ fault. IfRefused fault (IfSome (T.known source.now.texts.now) (λ texts.
        AppendsFront out.old.text.items out.new.text.items (said texts depth at.entry.name.now line.now)))) }
    ensures fault { IfErr result (λ fault. IsFaultOf (T.gives source.now.texts.now) (T.lacks source.now.texts.now) depth at.entry.name.now line.now
        (IsOver (length out.new.text.items) out.new.lines) fault) }
    ensures kept { OnOk result (AreKept (T.known source.now.texts.now) (T.gives source.now.texts.now) kept.new) }
{
    match file_of(line) {
        Some(file) => push_text(source, kept, depth, at, file, comment_of(line), out),
        None => push_plain(line, out),
    }
}

// Appends what stands for the lines of a text.
#[cycle(push)]
fn push_lines<T: Texts>(
    source: &Source<'_, T>,
    kept: &mut KeptTexts,
    depth: u64,
    name: &str,
    text: &[u8],
    out: &mut Expansion,
) -> Result<(), IncludeFault>
    requires { AreKept (T.known source.now.texts.now) (T.gives source.now.texts.now) kept.old }
    ensures said { OnOk result (IfSome (T.known source.now.texts.now) (λ texts. out.new.text.items ≡ out.old.text.items
        ++ flat_map (said texts depth name.now) (ended_lines text.now))) }
    ensures counted { out.new.lines + line_ends out.old.text.items ≤ out.old.lines + line_ends out.new.text.items }
    ensures front { IfErr result (λ fault. IfRefused fault (IfSome (T.known source.now.texts.now) (λ texts.
        AppendsFront out.old.text.items out.new.text.items (flat_map (said texts depth name.now) (ended_lines text.now))))) }
    ensures fault { IfErr result (λ fault. (line : List ℕ) × IsAmong line (ended_lines text.now) × IsFaultOf (T.gives source.now.texts.now)
        (T.lacks source.now.texts.now) depth name.now line (IsOver (length out.new.text.items) out.new.lines) fault) }
    ensures kept { OnOk result (AreKept (T.known source.now.texts.now) (T.gives source.now.texts.now) kept.new) }
{
    let mut rest = text;
    let mut line = 0u64;
    while let Some((first, others)) = cut(rest) {
        line = line.saturating_add(1);
        let at = Place {
            name,
            line: source.texts.number(line),
        };
        push_line(source, kept, depth, at, first, out)?;
        rest = others;
    }
    Ok(())
}
