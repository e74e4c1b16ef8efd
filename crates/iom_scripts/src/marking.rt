//! The texts that the lines of a script include, each between the marks by which it is known where its lines stand.

ghost use Rattle.std.specs.Prelude.{◌≡◌, ◌==◌, ◌++◌, ◌∷◌, [], take, IfOk, OnOk};
ghost use Rattle.std.specs.List.{position};
ghost use Rattle.iom_debug.specs.Marks.{begin_sign, end_sign};
ghost use Rattle.iom_scripts.specs.Marking.{before, end_of, is_open, mark_name, marked};

use iom_include::{TextFault, Texts};
use iom_text::line_end;
use std::alloc::{AllocError, Global};

// How many bytes of a name a mark has.
const MOST_BYTES_OF_A_NAME: usize = 510;

/// Texts, each between its marks.
#[derive(Drop)]
pub struct Marked<'t, T> {
    texts: &'t T,
}

impl<'t, T: Texts> Marked<'t, T> {
    ghost use Rattle.std.specs.Prelude.{◌≡◌};

    /// These texts.
    pub fn new(texts: &'t T) -> Marked<'t, T>
        ensures { result.texts.now ≡ texts.now }
    {
        Marked { texts }
    }
}

// What stands before a line end.
fn before_end(name: &[u8]) -> &[u8]
    ensures { result.now ≡ before (position (λ c. c == 10) name.now) name.now }
{
    match line_end(name) {
        Some(at) => &name[..at],
        None => name,
    }
}

// The first bytes of a name.
fn first_of(name: &[u8]) -> &[u8]
    ensures { result.now ≡ take 510 name.now }
{
    let count = name.len().min(MOST_BYTES_OF_A_NAME);
    &name[..count]
}

// A name as a mark has it.
fn mark_name(name: &[u8]) -> &[u8]
    ensures { result.now ≡ mark_name name.now }
{
    first_of(before_end(name))
}

// Whether the last line of a text lacks its end.
fn is_open(text: &[u8]) -> bool
    ensures { result ≡ is_open text.now }
{
    let count = text.len();
    count > 0 && text[count - 1] != b'\n'
}

// The mark before the text of a name.
fn begin_mark(alloc: Global, name: &[u8]) -> Result<Vec<u8>, AllocError>
    ensures { IfOk result (λ out. out.items ≡ begin_sign ++ mark_name name.now ++ 10 ∷ []) }
{
    let mut out = Vec::new(alloc);
    out.extend_from_slice(b"#\x02")?;
    out.extend_from_slice(mark_name(name))?;
    out.extend_from_slice(b"\n")?;
    Ok(out)
}

// Appends a line end to a text, if its last line lacks it.
fn close(out: &mut Vec<u8>, text: &[u8]) -> Result<(), AllocError>
    ensures { OnOk result (out.new.items ≡ out.old.items ++ end_of text.now) }
{
    if is_open(text) {
        out.extend_from_slice(b"\n")?;
    }
    Ok(())
}

// A text of this name between its marks.
fn with_marks(alloc: Global, name: &[u8], text: &[u8]) -> Result<Vec<u8>, AllocError>
    ensures { IfOk result (λ out. out.items ≡ marked name.now text.now) }
{
    let mut out = begin_mark(alloc, name)?;
    out.extend_from_slice(text)?;
    close(&mut out, text)?;
    out.extend_from_slice(b"#\x03\n")?;
    Ok(out)
}

impl<T: Texts> Texts for Marked<'_, T> {
    ghost use Rattle.iom_include.specs.Kept.{IsLack};
    ghost use Rattle.iom_scripts.specs.Marking.{IsMarkedText, marked_texts};

    ghost known = { λ own. marked_texts (T.known own.texts.now) };

    ghost gives = { λ own. IsMarkedText (T.gives own.texts.now) };

    ghost lacks = { λ own. IsLack (T.lacks own.texts.now) };

    fn text(&self, alloc: Global, name: &str) -> Result<Vec<u8>, TextFault> {
        let text = self.texts.text(alloc, name)?;
        Ok(with_marks(alloc, name.as_bytes(), text.as_slice())?)
    }

    fn number(&self, line: u64) -> u64 {
        line.saturating_sub(1)
    }
}
