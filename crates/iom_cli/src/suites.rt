//! The text that `check` writes about whole scripts: the sum over them, and the frames of TAP 13 and of JUnit's XML.

ghost use Rattle.std.specs.Prelude.{◌≡◌, ◌++◌, ◌∷◌, [], codes, OnOk};
ghost use Rattle.std.specs.List.{flat_map};
ghost use Rattle.iom_text.specs.Texts.{numeral};
ghost use Rattle.iom_cli.specs.Suites.{attribute, begins_as_image, cases, check_status, error_case, fault_point, files_text, plan_text, suite_head, suite_text, sum_text, tap_shown, unread_text, xml_hex, xml_shown, xml_text};

use hex::encode_to_slice;
use iom_text::decimal;
use std::alloc::AllocError;

/// The first line of TAP.
pub const TAP_HEAD: &[u8] = b"TAP version 13\n";

/// The text before the first suite of JUnit's XML.
pub const SUITES_HEAD: &[u8] = b"<?xml version=\"1.0\" encoding=\"UTF-8\"?>\n<testsuites>\n";

/// The text after the last suite of JUnit's XML.
pub const SUITES_END: &[u8] = b"</testsuites>\n";

/// What scripts came to.
#[derive(Clone, Copy)]
pub struct Sum {
    /// How many scripts there are.
    pub scripts: u64,
    /// How many test points passed.
    pub passed: u64,
    /// How many test points failed.
    pub failed: u64,
    /// How many scripts were not judged to their end.
    pub unread: u64,
}

/// The status that `check` ends with: 3 if a script was not judged to its end, else 1 if a test point failed, else 0.
pub fn check_status(sum: &Sum) -> u8
    ensures { result ≡ check_status sum.now }
{
    if sum.unread > 0 {
        3
    } else if sum.failed > 0 {
        1
    } else {
        0
    }
}

/// Whether a file begins as an image of any version does.
pub fn begins_as_image(bytes: &[u8]) -> bool
    ensures { result ≡ begins_as_image bytes.now }
{
    matches!(bytes, [b'R', b'V', b'I', b'O', b'M', b'M', b'U', ..])
}

// Appends a number in decimal.
fn put_number(out: &mut Vec<u8>, number: u64) -> Result<(), AllocError>
    ensures { OnOk result (out.new.items ≡ out.old.items ++ numeral 10 number) }
{
    out.extend_from_slice(decimal(number).as_slice())
}

// Appends how many files there are.
fn put_files(out: &mut Vec<u8>, count: u64) -> Result<(), AllocError>
    ensures { OnOk result (out.new.items ≡ out.old.items ++ files_text count) }
{
    put_number(out, count)?;
    if count == 1 {
        out.extend_from_slice(b" file: ")
    } else {
        out.extend_from_slice(b" files: ")
    }
}

// Appends how many were not read, if any.
fn put_unread(out: &mut Vec<u8>, count: u64) -> Result<(), AllocError>
    ensures { OnOk result (out.new.items ≡ out.old.items ++ unread_text count) }
{
    if count == 0 {
        return Ok(());
    }
    out.extend_from_slice(b", ")?;
    put_number(out, count)?;
    out.extend_from_slice(b" not read")
}

/// Appends the sum over files, as `3 files: 30 passed, 2 failed, 1 not read`, with its line end.
pub fn put_sum(out: &mut Vec<u8>, sum: &Sum) -> Result<(), AllocError>
    ensures { OnOk result (out.new.items ≡ out.old.items ++ sum_text sum.now) }
{
    put_files(out, sum.scripts)?;
    put_number(out, sum.passed)?;
    out.extend_from_slice(b" passed, ")?;
    put_number(out, sum.failed)?;
    out.extend_from_slice(b" failed")?;
    put_unread(out, sum.unread)?;
    out.extend_from_slice(b"\n")
}

/// Appends the plan of TAP for this number of test points.
pub fn put_plan(out: &mut Vec<u8>, points: u64) -> Result<(), AllocError>
    ensures { OnOk result (out.new.items ≡ out.old.items ++ plan_text points) }
{
    out.extend_from_slice(b"1..")?;
    put_number(out, points)?;
    out.extend_from_slice(b"\n")
}

// Appends a byte of a description of TAP.
fn put_tap_byte(out: &mut Vec<u8>, byte: u8) -> Result<(), AllocError>
    ensures { OnOk result (out.new.items ≡ out.old.items ++ tap_shown byte) }
{
    match byte {
        b'#' | b'\\' => out.extend_from_slice(&[b'\\', byte]),
        _ => out.extend_from_slice(&[byte]),
    }
}

// Appends a description of TAP.
fn put_tap(out: &mut Vec<u8>, text: &[u8]) -> Result<(), AllocError>
    ensures { OnOk result (out.new.items ≡ out.old.items ++ flat_map tap_shown text.now) }
{
    for byte in text {
        put_tap_byte(out, *byte)?;
    }
    Ok(())
}

/// Appends a test point of TAP with this number that is not ok, and says why. The text is one line.
pub fn put_fault_point(out: &mut Vec<u8>, number: u64, text: &[u8]) -> Result<(), AllocError>
    ensures { OnOk result (out.new.items ≡ out.old.items ++ fault_point number text.now) }
{
    out.extend_from_slice(b"not ok ")?;
    put_number(out, number)?;
    out.extend_from_slice(b" - ")?;
    put_tap(out, text)?;
    out.extend_from_slice(b"\n")
}

// Appends a byte that isn't printable, in hex.
fn put_hex(out: &mut Vec<u8>, byte: u8) -> Result<(), AllocError>
    ensures { OnOk result (out.new.items ≡ out.old.items ++ xml_hex byte) }
{
    let mut digits = [0; 2];
    let _fits = encode_to_slice(&[byte], &mut digits);
    out.extend_from_slice(b"\\x")?;
    out.extend_from_slice(&digits)
}

// Appends a byte of an attribute of XML.
#[tactic(auto, unfolding(crate::specs::Suites::xml_shown))]
fn put_xml_byte(out: &mut Vec<u8>, byte: u8) -> Result<(), AllocError>
    ensures { OnOk result (out.new.items ≡ out.old.items ++ xml_shown byte) }
{
    match byte {
        b'&' => out.extend_from_slice(b"&amp;"),
        b'<' => out.extend_from_slice(b"&lt;"),
        b'>' => out.extend_from_slice(b"&gt;"),
        b'"' => out.extend_from_slice(b"&quot;"),
        b'\'' => out.extend_from_slice(b"&apos;"),
        b' '..=b'~' => out.extend_from_slice(&[byte]),
        _ => put_hex(out, byte),
    }
}

// Appends a text as the value of an attribute of XML.
fn put_xml(out: &mut Vec<u8>, text: &[u8]) -> Result<(), AllocError>
    ensures { OnOk result (out.new.items ≡ out.old.items ++ xml_text text.now) }
{
    for byte in text {
        put_xml_byte(out, *byte)?;
    }
    Ok(())
}

// Appends the beginning of an attribute of XML.
fn put_name(out: &mut Vec<u8>, name: &[u8]) -> Result<(), AllocError>
    ensures { OnOk result (out.new.items ≡ out.old.items ++ (32 ∷ name.now ++ codes "=\"")) }
{
    out.extend_from_slice(b" ")?;
    out.extend_from_slice(name)?;
    out.extend_from_slice(b"=\"")
}

// Appends an attribute of XML whose value is a text.
#[tactic(auto, unfolding(crate::specs::Suites::attribute))]
fn put_text(out: &mut Vec<u8>, name: &[u8], text: &[u8]) -> Result<(), AllocError>
    ensures { OnOk result (out.new.items ≡ out.old.items ++ attribute name.now (xml_text text.now)) }
{
    put_name(out, name)?;
    put_xml(out, text)?;
    out.extend_from_slice(b"\"")
}

// Appends an attribute of XML whose value is a number.
#[tactic(auto, unfolding(crate::specs::Suites::attribute))]
fn put_count(out: &mut Vec<u8>, name: &[u8], count: u64) -> Result<(), AllocError>
    ensures { OnOk result (out.new.items ≡ out.old.items ++ attribute name.now (numeral 10 count)) }
{
    put_name(out, name)?;
    put_number(out, count)?;
    out.extend_from_slice(b"\"")
}

/// Appends a test case of JUnit's XML for a script that could not be judged to its end, and says why.
pub fn put_error_case(out: &mut Vec<u8>, name: &[u8], message: &[u8]) -> Result<(), AllocError>
    ensures { OnOk result (out.new.items ≡ out.old.items ++ error_case name.now message.now) }
{
    out.extend_from_slice(b"<testcase")?;
    put_text(out, b"classname", name)?;
    put_text(out, b"name", name)?;
    out.extend_from_slice(b"><error")?;
    put_text(out, b"message", message)?;
    out.extend_from_slice(b"/></testcase>\n")
}

// How many test cases there are, at most 2^64 - 1.
fn cases(sum: &Sum) -> u64
    ensures { result ≡ cases sum.now }
{
    sum.passed
        .saturating_add(sum.failed)
        .saturating_add(sum.unread)
}

// Appends what stands before the test cases of a suite.
#[tactic(auto, unfolding(crate::specs::Suites::suite_head))]
fn put_suite_head(out: &mut Vec<u8>, name: &[u8], sum: &Sum) -> Result<(), AllocError>
    ensures { OnOk result (out.new.items ≡ out.old.items ++ suite_head name.now sum.now) }
{
    out.extend_from_slice(b"<testsuite")?;
    put_text(out, b"name", name)?;
    put_count(out, b"tests", cases(sum))?;
    put_count(out, b"failures", sum.failed)?;
    put_count(out, b"errors", sum.unread)?;
    out.extend_from_slice(b">\n")
}

/// Appends a suite of JUnit's XML: a script of this name, what it came to, and its test cases.
pub fn put_suite(
    out: &mut Vec<u8>,
    name: &[u8],
    sum: &Sum,
    cases_text: &[u8],
) -> Result<(), AllocError>
    ensures { OnOk result (out.new.items ≡ out.old.items ++ suite_text name.now sum.now cases_text.now) }
{
    put_suite_head(out, name, sum)?;
    out.extend_from_slice(cases_text)?;
    out.extend_from_slice(b"</testsuite>\n")
}
