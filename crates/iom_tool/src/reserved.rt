//! Words that name nothing else.

ghost use Rattle.std.specs.Prelude.{◌≡◌, is_some, map};
ghost use Rattle.iom_tool.specs.Parsed.{part_as, row_as};
ghost use Rattle.iom_tool.specs.Reserved.{is_in_parts, is_in_rows, is_reserved, is_this};
ghost use Rattle.iom_tool.specs.Script.{rows as table};

use crate::data::is_data;
use crate::names::{block_register_named, register_named};
use crate::rows::{Part, ROWS, Row};

// Whether a part of a row is this word.
fn is_this(word: &[u8], part: Part) -> bool
    ensures { result ≡ is_this word.now (part_as part) }
{
    match part {
        Part::Word(name) => word == name,
        _ => false,
    }
}

// Whether one of these parts is this word.
fn is_in_parts(word: &[u8], parts: &[Part]) -> bool
    ensures { result ≡ is_in_parts word.now (map part_as parts.now) }
{
    match parts {
        [] => false,
        [first, more @ ..] => is_this(word, *first) || is_in_parts(word, more),
    }
}

// Whether one of these rows has this word.
fn is_in_rows(word: &[u8], rows: &[Row]) -> bool
    ensures { result ≡ is_in_rows word.now (map row_as rows.now) }
{
    match rows {
        [] => false,
        [first, more @ ..] => is_in_parts(word, first.2) || is_in_rows(word, more),
    }
}

// Whether the table of forms has this word.
fn is_in_table(word: &[u8]) -> bool
    ensures { result ≡ is_in_rows word.now table }
{
    is_in_rows(word, &ROWS)
}

/// Whether a word has a meaning of its own in a line of any script: it is a word of the table of forms, the name of a register of the IOMMU
/// or of a block device, or 1 to 64 bytes in hex.
#[tactic(auto, unfolding(crate::specs::Reserved::is_reserved))]
pub fn is_reserved(word: &[u8]) -> bool
    ensures { result ≡ is_reserved word.now }
{
    is_in_table(word)
        || register_named(word).is_some()
        || block_register_named(word).is_some()
        || is_data(word)
}
