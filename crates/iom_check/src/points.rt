//! Test points and notes, as each style writes them.

ghost use Rattle.std.specs.Prelude.{◌≡◌, ◌+◌, ◌*◌, ◌++◌, ◌≤◌, codes, length};
ghost use Rattle.std.specs.Option.{option_map};
ghost use Rattle.iom_text.specs.Texts.{numeral};
ghost use Rattle.iom_debug.specs.Placed.{placed};
ghost use Rattle.iom_debug.specs.Places.{name_told};
ghost use Rattle.iom_check.specs.Reporting.{class_told, failed_told, file_of, headed, junit_failure, junit_test, note_told, passed_told, place_told, sum_told, tally_told, tap_point, tap_report};

use crate::pages::{Quoting, ReportPage, push, push_quoted};
use crate::rules::{Style, Tally};
use iom_debug::{OutputPage, Place, first_bytes, line_in, put, put_escaped};
use iom_text::decimal;

/// A line of a script, and the number that a test point of it has.
#[derive(Clone, Copy)]
pub struct Point<'n, 'p> {
    /// The script's file, if it has one.
    pub name: Option<&'n str>,
    /// Where the line stands.
    pub place: &'p Place,
    /// The point's.
    pub number: u64,
}

// Puts the first 513 bytes of a file's name.
fn put_name(out: &mut OutputPage, name: &[u8])
    requires { length out.old.items ≡ 0 }
    ensures text { out.new.items ≡ out.old.items ++ name_told name.now }
    ensures room { length out.new.items ≤ 2052 }
{
    put_escaped(out, first_bytes(name));
}

// The file, for a test of JUnit.
fn class_told(name: Option<&str>) -> OutputPage
    ensures text { result.items ≡ class_told (option_map (λ name. name.now) name.entry) }
    ensures room { length result.items ≤ 2052 }
{
    let mut out = OutputPage::new();
    match name {
        Some(name) => put_name(&mut out, name.as_bytes()),
        None => put(&mut out, b"script"),
    }
    out
}

// What a line is told by: the text that it stands in, if the script includes it, or else the script's file.
fn file_of<'a>(name: Option<&'a str>, place: &'a Place) -> Option<&'a [u8]>
    ensures { option_map (λ file. file.now) result ≡ file_of (option_map (λ name. name.now) name.entry) (placed place.now).text }
{
    match (&place.text, name) {
        (Some(text), _) => Some(text.as_slice()),
        (None, Some(name)) => Some(name.as_bytes()),
        (None, None) => None,
    }
}

// The place of a line.
fn place_told(name: Option<&str>, place: &Place) -> OutputPage
    ensures text { result.items ≡ place_told (option_map (λ name. name.now) name.entry) (placed place.now) }
    ensures room { length result.items ≤ 2080 }
{
    line_in(file_of(name, place), place.line)
}

// What is said of a line, behind its place.
#[tactic(auto, unfolding(crate::specs::Reporting::headed))]
fn headed(name: Option<&str>, place: &Place, text: &[u8]) -> OutputPage
    requires { length text.now ≤ 13568 }
    ensures text { result.items ≡ headed (option_map (λ name. name.now) name.entry) (placed place.now) text.now }
    ensures room { length result.items ≤ 2082 + length text.now }
{
    let mut out = place_told(name, place);
    put(&mut out, b": ");
    put(&mut out, text);
    out
}

// Appends a test point of TAP, without its head.
#[tactic(auto, unfolding(crate::specs::Reporting::tap_point))]
fn push_tap_point(out: &mut ReportPage, point: Point<'_, '_>, title: &[u8])
    requires room { length out.old.items + 6 * length title.now + 12600 ≤ 204800 }
    requires short { length title.now ≤ 13568 }
    ensures text { out.new.items ≡ out.old.items ++ tap_point point.entry.number (option_map (λ name. name.now) point.entry.name) (placed point.entry.place.now) title.now }
    ensures room { length out.new.items ≤ length out.old.items + 6 * length title.now + 12600 }
{
    push(out, decimal(point.number).as_slice());
    push(out, b" - ");
    push_quoted(
        out,
        Quoting::Tap,
        headed(point.name, point.place, title).as_slice(),
    );
    push(out, b"\n");
}

// Appends the report of a test point of TAP.
#[tactic(auto, unfolding(crate::specs::Reporting::tap_report))]
fn push_tap_report(out: &mut ReportPage, point: Point<'_, '_>, message: &[u8])
    requires room { length out.old.items + 6 * length message.now + 12600 ≤ 204800 }
    requires short { length message.now ≤ 13568 }
    ensures text { out.new.items ≡ out.old.items ++ tap_report (option_map (λ name. name.now) point.entry.name) (placed point.entry.place.now) message.now }
    ensures room { length out.new.items ≤ length out.old.items + 6 * length message.now + 12600 }
{
    push(out, b"  ---\n  message: \"");
    push_quoted(
        out,
        Quoting::Yaml,
        headed(point.name, point.place, message).as_slice(),
    );
    push(out, b"\"\n  ...\n");
}

// Appends a test of JUnit, up to its end.
#[tactic(auto, unfolding(crate::specs::Reporting::junit_test))]
fn push_junit_test(out: &mut ReportPage, point: Point<'_, '_>, title: &[u8])
    requires room { length out.old.items + 6 * length title.now + 25200 ≤ 204800 }
    requires short { length title.now ≤ 13568 }
    ensures text { out.new.items ≡ out.old.items ++ junit_test (option_map (λ name. name.now) point.entry.name) (placed point.entry.place.now) title.now }
    ensures room { length out.new.items ≤ length out.old.items + 6 * length title.now + 25200 }
{
    push(out, b"<testcase classname=\"");
    push_quoted(out, Quoting::Xml, class_told(point.name).as_slice());
    push(out, b"\" name=\"");
    push_quoted(
        out,
        Quoting::Xml,
        headed(None, point.place, title).as_slice(),
    );
    push(out, b"\"");
}

// Appends that it failed.
#[tactic(auto, unfolding(crate::specs::Reporting::junit_failure))]
fn push_junit_failure(out: &mut ReportPage, message: &[u8])
    requires { length out.old.items + 6 * length message.now + 60 ≤ 204800 }
    ensures text { out.new.items ≡ out.old.items ++ junit_failure message.now }
    ensures room { length out.new.items ≤ length out.old.items + 6 * length message.now + 60 }
{
    push(out, b"><failure message=\"");
    push_quoted(out, Quoting::Xml, message);
    push(out, b"\"/></testcase>\n");
}

/// Appends a test point that passed.
pub fn push_pass(out: &mut ReportPage, style: Style, point: Point<'_, '_>, title: &[u8])
    requires room { length out.old.items + 6 * length title.now + 25300 ≤ 204800 }
    requires short { length title.now ≤ 13568 }
    ensures text { out.new.items ≡ out.old.items
        ++ passed_told style point.entry.number (option_map (λ name. name.now) point.entry.name) (placed point.entry.place.now) title.now }
    ensures room { length out.new.items ≤ length out.old.items + 6 * length title.now + 25300 }
{
    match style {
        Style::Text => {}
        Style::Tap => {
            push(out, b"ok ");
            push_tap_point(out, point, title);
        }
        Style::Junit => {
            push_junit_test(out, point, title);
            push(out, b"/>\n");
        }
    }
}

/// Appends one that failed, with its report.
pub fn push_failure(
    out: &mut ReportPage,
    style: Style,
    point: Point<'_, '_>,
    title: &[u8],
    message: &[u8],
)
    requires room { length out.old.items + 6 * length title.now + 6 * length message.now + 25300 ≤ 204800 }
    requires title { length title.now ≤ 13568 }
    requires message { length message.now ≤ 13568 }
    ensures text { out.new.items ≡ out.old.items
        ++ failed_told style point.entry.number (option_map (λ name. name.now) point.entry.name) (placed point.entry.place.now) title.now message.now }
    ensures room { length out.new.items ≤ length out.old.items + 6 * length title.now + 6 * length message.now + 25300 }
{
    match style {
        Style::Text => {
            push(out, headed(point.name, point.place, message).as_slice());
            push(out, b"\n");
        }
        Style::Tap => {
            push(out, b"not ok ");
            push_tap_point(out, point, title);
            push_tap_report(out, point, message);
        }
        Style::Junit => {
            push_junit_test(out, point, title);
            push_junit_failure(out, message);
        }
    }
}

// Puts `note: ` before a text.
fn noted(text: &[u8]) -> OutputPage
    requires { length text.now ≤ 2620 }
    ensures text { result.items ≡ codes "note: " ++ text.now }
    ensures room { length result.items ≤ 2626 }
{
    let mut out = OutputPage::new();
    put(&mut out, b"note: ");
    put(&mut out, text);
    out
}

/// Appends a note.
pub fn push_note(out: &mut ReportPage, style: Style, name: Option<&str>, place: &Place, text: &[u8])
    requires room { length out.old.items + 4800 ≤ 204800 }
    requires short { length text.now ≤ 2620 }
    ensures text { out.new.items ≡ out.old.items ++ note_told style (option_map (λ name. name.now) name.entry) (placed place.now) text.now }
    ensures room { length out.new.items ≤ length out.old.items + 4800 }
{
    match style {
        Style::Text => {
            push(out, headed(name, place, noted(text).as_slice()).as_slice());
            push(out, b"\n");
        }
        Style::Tap => {
            push(out, b"# ");
            push(out, headed(name, place, noted(text).as_slice()).as_slice());
            push(out, b"\n");
        }
        Style::Junit => {}
    }
}

// Appends a file's name, if there is one, before its sum.
fn push_class(out: &mut ReportPage, name: &str)
    requires { length out.old.items + 2100 ≤ 204800 }
    ensures text { out.new.items ≡ out.old.items ++ (name_told name.now ++ codes ": ") }
    ensures room { length out.new.items ≤ length out.old.items + 2100 }
{
    push(out, class_told(Some(name)).as_slice());
    push(out, b": ");
}

// Appends a sum.
fn push_sum(out: &mut ReportPage, tally: Tally)
    requires { length out.old.items + 100 ≤ 204800 }
    ensures text { out.new.items ≡ out.old.items ++ sum_told tally.passed tally.failed }
    ensures room { length out.new.items ≤ length out.old.items + 100 }
{
    push(out, decimal(tally.passed).as_slice());
    push(out, b" passed, ");
    push(out, decimal(tally.failed).as_slice());
    push(out, b" failed\n");
}

/// Appends the sum of a script.
pub fn push_tally(out: &mut ReportPage, style: Style, name: Option<&str>, tally: Tally)
    requires { length out.old.items + 2200 ≤ 204800 }
    ensures { out.new.items ≡ out.old.items ++ tally_told style (option_map (λ name. name.now) name.entry) tally.passed tally.failed }
{
    if let Style::Text = style {
        if let Some(name) = name {
            push_class(out, name);
        }
        push_sum(out, tally);
    }
}
