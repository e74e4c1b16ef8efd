//! The report of a line, put together before it is written at once.

ghost use Rattle.std.specs.Prelude.{◌≡◌, ◌+◌, ◌*◌, ◌++◌, ◌≤◌, length};
ghost use Rattle.iom_check.specs.Reporting.{in_xml, quoted, quoted_byte};

use arrayvec::ArrayVec;

/// Room for two test points.
pub type ReportPage = ArrayVec<u8, 204800>;

/// Where a text stands, some bytes of which are written otherwise there.
#[derive(Clone, Copy)]
pub enum Quoting {
    /// A description of TAP 14.
    Tap,
    /// A text of YAML between double quotes.
    Yaml,
    /// An attribute of XML.
    Xml,
}

/// Appends bytes, for which there is room.
pub fn push(out: &mut ReportPage, text: &[u8])
    requires { length out.old.items + length text.now ≤ 204800 }
    ensures text { out.new.items ≡ out.old.items ++ text.now }
    ensures room { length out.new.items ≡ length out.old.items + length text.now }
{
    let _fits = out.try_extend_from_slice(text);
}

// Appends a byte as XML has it.
#[tactic(auto, unfolding(crate::specs::Reporting::in_xml))]
fn push_in_xml(out: &mut ReportPage, byte: u8)
    requires { length out.old.items + 6 ≤ 204800 }
    ensures text { out.new.items ≡ out.old.items ++ in_xml byte }
    ensures room { length out.new.items ≤ length out.old.items + 6 }
{
    match byte {
        b'&' => push(out, b"&amp;"),
        b'<' => push(out, b"&lt;"),
        b'>' => push(out, b"&gt;"),
        b'"' => push(out, b"&quot;"),
        b'\'' => push(out, b"&apos;"),
        _ => push(out, &[byte]),
    }
}

// Appends a byte.
fn push_byte(out: &mut ReportPage, quoting: Quoting, byte: u8)
    requires { length out.old.items + 6 ≤ 204800 }
    ensures text { out.new.items ≡ out.old.items ++ quoted_byte quoting byte }
    ensures room { length out.new.items ≤ length out.old.items + 6 }
{
    match quoting {
        Quoting::Tap if byte == b'#' || byte == b'\\' => push(out, &[b'\\', byte]),
        Quoting::Yaml if byte == b'"' || byte == b'\\' => push(out, &[b'\\', byte]),
        Quoting::Xml => push_in_xml(out, byte),
        _ => push(out, &[byte]),
    }
}

/// Appends a text, six bytes for each of it at most.
pub fn push_quoted(out: &mut ReportPage, quoting: Quoting, text: &[u8])
    requires { length out.old.items + 6 * length text.now ≤ 204800 }
    ensures text { out.new.items ≡ out.old.items ++ quoted quoting text.now }
    ensures room { length out.new.items ≤ length out.old.items + 6 * length text.now }
{
    for byte in text {
        push_byte(out, quoting, *byte);
    }
}
