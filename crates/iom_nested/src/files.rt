ghost use Rattle.std.specs.Prelude.{◌≡◌, ◌≤◌, ◌<◌, ◌^◌};
ghost use Rattle.iom_nested.specs.Files.{entry_frame, file_place, file_ruling, file_word, has_reserved, hit_by_file, is_of_file, packed, word_ruling};
ghost use Rattle.iom_nested.specs.Nested.{told_of};

use crate::translation::{Fault, Hit, Reached, hit_at};
use iom_bits::{Cause, Kind, field, has_bit};
use iom_ddt::Context;
use iom_mem::{Region, words_at};

/// The row of the table of MSI entries that decides of one, the first that applies ("Process to translate addresses of MSIs").
#[derive(Clone, Copy, PartialEq)]
pub enum FileRuling {
    /// A word of it is outside memory: cause 261.
    Outside,
    /// V is 0: cause 262.
    Invalid,
    /// C is 1, for custom use: cause 262.
    Custom,
    /// M is 0 or 2, which are reserved: cause 263.
    BadMode,
    /// M is 1, a memory-resident interrupt file, which this IOMMU doesn't have: cause 263.
    Resident,
    /// A reserved bit is set: cause 263.
    Reserved,
    /// M is 3, basic: it leads to its PPN.
    Leads,
}

/// Whether an address that the first stage reached is one of an interrupt file: the MSI page table's entry translates it in place of the
/// second stage.
#[inline(always)]
pub fn is_of_file(context: &Context, addr: u64) -> bool
    ensures { result ≡ is_of_file context.now.msi addr }
{
    let msi = context.fields.msi;
    msi.flat && addr / 4096 | msi.mask == msi.pattern | msi.mask
}

/// The physical address of the entry of the interrupt file at an address that the first stage reached.
pub fn file_place(context: &Context, addr: u64) -> u64
    ensures { result ≡ file_place context.now.msi addr }
{
    let msi = context.fields.msi;
    msi.ppn * 4096 | packed(52, addr / 4096, msi.mask) * 16
}

/// The first word of an entry of an MSI page table at a physical address; None if one of its two words is outside memory.
pub fn file_word<M: Region>(ram: &M, place: u64) -> Option<u64>
    ensures { result ≡ file_word (M.memory ram.now) place }
{
    let words: [u64; 2] = words_at(ram, place)?;
    Some(words[0])
}

/// The row that decides of an entry with this first word; None is one that is outside memory.
#[tactic(auto, unfolding(iom_bits::specs::Bits::has_bit))]
pub fn file_ruling(word: Option<u64>) -> FileRuling
    ensures { result ≡ file_ruling word }
{
    match word {
        None => FileRuling::Outside,
        Some(word) => word_ruling(word),
    }
}

/// Where an entry with this first word leads what the first stage reached. The fault is `MsiAccess`, `MsiInvalid` or `MsiBad`, by the row.
pub fn hit_by_file(reached: Reached, word: Option<u64>, kind: Kind) -> Result<Hit, Fault>
    requires level { reached.level < 5 }
    ensures { result ≡ told_of kind (hit_by_file reached word) }
{
    let Some(word) = word else {
        return Err(fault(Cause::MsiAccess));
    };
    match word_ruling(word) {
        FileRuling::Outside => Err(fault(Cause::MsiAccess)),
        FileRuling::Invalid | FileRuling::Custom => Err(fault(Cause::MsiInvalid)),
        FileRuling::BadMode | FileRuling::Resident | FileRuling::Reserved => {
            Err(fault(Cause::MsiBad))
        }
        FileRuling::Leads => Ok(hit_at(reached, entry_frame(word))),
    }
}

fn word_ruling(word: u64) -> FileRuling
    ensures { result ≡ word_ruling word }
{
    let mode = field(word, 1, 2);
    if !has_bit(word, 0) {
        FileRuling::Invalid
    } else if has_bit(word, 63) {
        FileRuling::Custom
    } else if mode % 2 == 0 {
        FileRuling::BadMode
    } else if mode == 1 {
        FileRuling::Resident
    } else if has_reserved(word) {
        FileRuling::Reserved
    } else {
        FileRuling::Leads
    }
}

fn has_reserved(word: u64) -> bool
    ensures { result ≡ has_reserved word }
{
    !(field(word, 3, 7) == 0 && field(word, 54, 9) == 0)
}

fn entry_frame(word: u64) -> u64
    ensures frame { result ≡ entry_frame word }
    ensures fits { result < 2 ^ 52 }
{
    field(word, 10, 44)
}

fn fault(cause: Cause) -> Fault
    ensures { result ≡ record { cause = cause; iotval2 = 0 } }
{
    Fault { cause, iotval2: 0 }
}

// The bits of a number at the places where a mask of `count` bits has 1, packed to the low end.
#[tactic(auto, using(crate::proofs::Packed::none, crate::proofs::Packed::one, crate::proofs::Packed::step))]
fn packed(count: u32, number: u64, mask: u64) -> u64
    ensures packed { result ≡ packed count number mask }
    ensures small { result ≤ number }
{
    if count == 0 || mask == 0 {
        return 0;
    }
    let above = packed(count - 1, number / 2, mask / 2);
    if mask % 2 == 1 {
        2 * above + number % 2
    } else {
        above
    }
}
