//! Where the lines of a script stand.

ghost use Rattle.std.specs.Prelude.{◌≡◌, ◌+◌, ◌++◌, ◌≤◌, codes, length, take, Some, None};
ghost use Rattle.std.specs.Option.{option_map};
ghost use Rattle.iom_debug.specs.Places.{line_in, line_named, name_told, number_in, number_named, own};
ghost use Rattle.iom_debug.specs.Placed.{placed};

use crate::page::{OutputPage, first_bytes, put, put_escaped, put_number};
use arrayvec::ArrayVec;

/// Where a line stands.
#[derive(Drop)]
pub struct Place {
    /// The name of the text, if the script includes it: its first 513 bytes.
    pub text: Option<ArrayVec<u8, 513>>,
    /// The line, counted from 1 in the text.
    pub line: u64,
}

impl Place {
    /// A line of the script itself, counted from 1.
    pub fn own(line: u64) -> Place
        ensures { placed result ≡ own line }
    {
        Place { text: None, line }
    }

    /// A line of a text of this name, counted from 1 in it.
    pub fn of_text(name: &[u8], line: u64) -> Place
        ensures { placed result ≡ record { text = Some (take 513 name.now); line = line } }
    {
        let mut text = ArrayVec::new();
        let _fits = text.try_extend_from_slice(first_bytes(name));
        Place {
            text: Some(text),
            line,
        }
    }
}

// Appends a file's name before the number of a line.
fn put_file(out: &mut OutputPage, name: &[u8])
    requires { length out.old.items + 2053 ≤ 36864 }
    ensures text { out.new.items ≡ out.old.items ++ (name_told name.now ++ codes ":") }
    ensures room { length out.new.items ≤ length out.old.items + 2053 }
{
    put_escaped(out, first_bytes(name));
    put(out, b":");
}

// Appends a line of a file.
fn put_in_file(out: &mut OutputPage, name: &[u8], line: u64)
    requires { length out.old.items + 2080 ≤ 36864 }
    ensures text { out.new.items ≡ out.old.items ++ line_in (Some name.now) line }
    ensures room { length out.new.items ≤ length out.old.items + 2080 }
{
    put_file(out, name);
    put_number(out, line);
}

// Appends a line of the script itself.
fn put_own(out: &mut OutputPage, line: u64)
    requires { length out.old.items + 2080 ≤ 36864 }
    ensures text { out.new.items ≡ out.old.items ++ line_in None line }
    ensures room { length out.new.items ≤ length out.old.items + 2080 }
{
    put(out, b"line ");
    put_number(out, line);
}

// Appends a line of a file, or, if none is named, of the script itself.
fn put_line_in(out: &mut OutputPage, file: Option<&[u8]>, line: u64)
    requires { length out.old.items + 2080 ≤ 36864 }
    ensures text { out.new.items ≡ out.old.items ++ line_in (option_map (λ file. file.now) file.entry) line }
    ensures room { length out.new.items ≤ length out.old.items + 2080 }
{
    match file {
        Some(file) => put_in_file(out, file, line),
        None => put_own(out, line),
    }
}

/// A line of a file, or, if none is named, of the script itself: `common/begin.script:12`, or `line 12`. At most 2080 bytes; of a name 513 bytes
/// stand in it, escaped.
pub fn line_in(file: Option<&[u8]>, line: u64) -> OutputPage
    ensures text { result.items ≡ line_in (option_map (λ file. file.now) file.entry) line }
    ensures room { length result.items ≤ 2080 }
{
    let mut out = OutputPage::new();
    put_line_in(&mut out, file, line);
    out
}

/// Appends a line as what is reported of another names it, at most 2080 bytes.
pub fn put_line_named(out: &mut OutputPage, place: &Place)
    requires { length out.old.items + 2080 ≤ 36864 }
    ensures text { out.new.items ≡ out.old.items ++ line_named (placed place.now) }
    ensures room { length out.new.items ≤ length out.old.items + 2080 }
{
    match &place.text {
        Some(text) => put_line_in(out, Some(text.as_slice()), place.line),
        None => put_line_in(out, None, place.line),
    }
}

/// Appends the number of a line, with its file if a text has the line: `12`, or `common/begin.script:12`; at most 2080 bytes.
pub fn put_number_named(out: &mut OutputPage, place: &Place)
    requires { length out.old.items + 2080 ≤ 36864 }
    ensures text { out.new.items ≡ out.old.items ++ number_named (placed place.now) }
    ensures room { length out.new.items ≤ length out.old.items + 2080 }
{
    match &place.text {
        Some(text) => put_in_file(out, text.as_slice(), place.line),
        None => put_number(out, place.line),
    }
}
