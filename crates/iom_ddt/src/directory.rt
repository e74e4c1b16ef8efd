//! The search of the directory.

ghost use Rattle.std.specs.Prelude.{◌≡◌, ◌↔◌, ◌<◌, ◌≤◌, ◌^◌, ◌-◌, ◌∷◌, ℕ, IfOk, Some};
ghost use Rattle.std.specs.List.{fold};
ghost use Rattle.arrayvec.specs.ArrayVec.{array_vec_len};
ghost use Rattle.iom_regs.specs.Views.{mode_of};
ghost use Rattle.iom_ddt.specs.Directory.{IsContextOf, IsEnd, IsLocated, behind, decided_by, entry_place, is_too_wide, leaf_place, levels_of, located, path_from, path_of, pointed_by, verdict_on};
ghost use Rattle.iom_ddt.specs.Formats.{context_format};
ghost use Rattle.iom_ddt.specs.declared.met.Met.TheVariants.{Entry, Leaf};

use crate::formats::{ContextFormat, context_bytes, ddi, words_in};
use crate::met::{DirectoryPath, Met};
use crate::notes::Notes;
use crate::{Context, context_of};
use iom_bits::{Cause, Features, field, has_bit};
use iom_mem::Region;
use iom_regs::{Mode, Regs};

/// The context of a device id of at most 24 bits, under a mode that has a directory ("Process to locate the
/// Device-context").
///
/// `TooWide` if the id has bits above those of the directory's levels; this is tested first. Then the entries on the way and the context
/// are judged in turn, and the first fault is the answer: `DirAccess` outside memory, `DirInvalid` if V = 0, `DirBad` if it is
/// misconfigured.
pub fn locate<M: Region>(ram: &M, registers: &Regs, did: u32) -> Result<Context, Cause>
    requires directory { 1 ≤ levels_of (mode_of registers.now) }
    ensures verdict { result ≡ located (M.memory ram.now) registers.now did }
    ensures meaning { IsLocated (M.memory ram.now) registers.now did result }
{
    locate_from_root(ram, registers, did, &mut ())
}

/// What `locate` meets for a device id below 2^24, up to the context or to the first entry that is a fault; nothing if the id is too wide
/// ("Process to locate the Device-context").
#[tactic(auto, unfolding(crate::specs::Directory::path_of))]
pub fn path<M: Region>(ram: &M, registers: &Regs, did: u32) -> DirectoryPath
    requires directory { 1 ≤ levels_of (mode_of registers.now) }
    ensures path { result.items ≡ path_of (M.memory ram.now) registers.now did }
    ensures levels { array_vec_len result ≤ levels_of (mode_of registers.now) }
{
    let mut met = DirectoryPath::new();
    let _found = locate_from_root(ram, registers, did, &mut met);
    met
}

// The context of a device id, with notes of what is met.
#[inline(always)]
#[tactic(auto, unfolding(crate::specs::Directory::located, crate::specs::Directory::path_of))]
fn locate_from_root<M: Region, N: Notes>(
    ram: &M,
    registers: &Regs,
    did: u32,
    notes: &mut N,
) -> Result<Context, Cause>
    requires directory { 1 ≤ levels_of (mode_of registers.now) }
    ensures verdict { result ≡ located (M.memory ram.now) registers.now did }
    ensures meaning { IsLocated (M.memory ram.now) registers.now did result }
    ensures noted { notes.new ≡ fold N.next notes.old (path_of (M.memory ram.now) registers.now did) }
    ensures most { levels_of (mode_of registers.now) ≤ 3 }
{
    let levels = levels_of(registers.mode());
    if is_too_wide(registers, did) {
        return Err(Cause::TooWide);
    }
    let features = registers.features();
    let format = ContextFormat::of(features);
    locate_from(ram, features, format, did, registers.root(), levels, notes)
}

/// The context of a device id of at most 24 bits, below a non-leaf entry of the directory with this word, which was met at level 1 or 2,
/// with notes of what is met below it; with the faults of `locate` ("Process to locate the Device-context").
#[tactic(auto, unfolding(crate::specs::Directory::verdict_on))]
pub fn locate_below<M: Region, N: Notes>(
    ram: &M,
    registers: &Regs,
    did: u32,
    level: u8,
    word: u64,
    notes: &mut N,
) -> Result<Context, Cause>
    requires some { 1 ≤ level }
    requires most { level ≤ 2 }
    ensures verdict { result ≡ verdict_on registers.now.features
        (Entry 0 (Some word) ∷ behind (pointed_by (Some word)) (path_from (context_format registers.now.features) (M.memory ram.now) did (level - 1))) }
    ensures noted { notes.new ≡ fold N.next notes.old (behind (pointed_by (Some word)) (path_from (context_format registers.now.features) (M.memory ram.now) did (level - 1))) }
{
    let table = pointed_by(Some(word))?;
    let features = registers.features();
    let format = ContextFormat::of(features);
    locate_from(ram, features, format, did, table, level, notes)
}

// The context from a table on, of which `count` levels are left, 1 to 3, with notes of what is met; `table` is its PPN.
#[inline(always)]
fn locate_from<M: Region, N: Notes>(
    ram: &M,
    features: Features,
    format: ContextFormat,
    did: u32,
    table: u64,
    count: u8,
    notes: &mut N,
) -> Result<Context, Cause>
    requires table { table < 2 ^ 44 }
    requires some { 1 ≤ count }
    ensures verdict { result ≡ verdict_on features (path_from format (M.memory ram.now) did (count - 1) table) }
    ensures meaning { IsEnd features (path_from format (M.memory ram.now) did (count - 1) table) result }
    ensures noted { notes.new ≡ fold N.next notes.old (path_from format (M.memory ram.now) did (count - 1) table) }
{
    let did = did as u64;
    let mut table = table;
    for level in (1..count).rev() {
        let place = entry_place(format, did, level, table);
        let word = ram.word(place);
        notes.note(Met::Entry { place, word });
        table = pointed_by(word)?;
    }
    let place = leaf_place(format, did, table);
    let words = words_in(ram, format, place);
    notes.note(Met::Leaf { place, words });
    context_in(features, words)
}

// How many levels of tables the directory has, 1 to 3; 0 if there is none.
fn levels_of(mode: Mode) -> u8
    ensures { result ≡ levels_of mode }
{
    match mode {
        Mode::Off | Mode::Bare => 0,
        Mode::Levels(levels) => levels,
    }
}

/// Whether a device id has bits above those that the directory's levels take as indexes: above bit 6 for one level, above bit 15 for two;
/// in extended format above bits 5 and 14. Its accesses are denied with cause 260, `TooWide`.
pub fn is_too_wide(registers: &Regs, did: u32) -> bool
    ensures { result ≡ is_too_wide (context_format registers.now.features) (levels_of (mode_of registers.now)) did }
{
    is_beyond(
        ContextFormat::of(registers.features()),
        levels_of(registers.mode()),
        did as u64,
    )
}

// Whether a device id has bits above those that so many levels take as indexes.
fn is_beyond(format: ContextFormat, levels: u8, did: u64) -> bool
    ensures { result ≡ is_too_wide format levels did }
{
    levels < 3 && ddi(format, did, 2) != 0 || levels < 2 && ddi(format, did, 1) != 0
}

// Where an entry is met in a table above the last one, and the context in the last table, at physical addresses; `table` is the table's PPN.
fn entry_place(format: ContextFormat, did: u64, level: u8, table: u64) -> u64
    requires { table < 2 ^ 44 }
    ensures { result ≡ entry_place format did level table }
{
    table * 4096 + ddi(format, did, level) * 8
}

fn leaf_place(format: ContextFormat, did: u64, table: u64) -> u64
    requires { table < 2 ^ 44 }
    ensures { result ≡ leaf_place format did table }
{
    table * 4096 + ddi(format, did, 0) * context_bytes(format)
}

// The PPN, 44 bits, of the table that an entry with this word points to: its address divided by 4096. `DirAccess` if a byte of the entry is
// outside memory, `DirInvalid` if V = 0, `DirBad` if a reserved bit is set ("Process to locate the Device-context").
fn pointed_by(entry: Option<u64>) -> Result<u64, Cause>
    ensures entry { result ≡ pointed_by entry }
    ensures fits { IfOk result (λ table. table < 2 ^ 44) }
{
    let entry = entry.ok_or(Cause::DirAccess)?;
    if !has_bit(entry, 0) {
        Err(Cause::DirInvalid)
    } else if field(entry, 1, 9) != 0 || field(entry, 54, 10) != 0 {
        Err(Cause::DirBad)
    } else {
        Ok(field(entry, 10, 44))
    }
}

// The context with these words.
fn context_in(features: Features, words: Option<[u64; 8]>) -> Result<Context, Cause>
    ensures verdict { (place : ℕ) → decided_by features (Leaf place words) ≡ Some result }
    ensures meaning { IsContextOf features words result }
{
    let Some(words) = words else {
        return Err(Cause::DirAccess);
    };
    match context_of(words) {
        Ok(context) if !context.has_modes(features) => Err(Cause::DirBad),
        found => found,
    }
}
