//! Why the directory refuses an entry or a context.

ghost use Rattle.std.specs.Prelude.{◌≡◌, Some};
ghost use Rattle.iom_ddt.specs.Directory.{decided_by, pointed_by, with_modes};
ghost use Rattle.iom_ddt.specs.Refusals.{IsReasonFor, IsReasonOf, context_refusal, entry_refusal, first_row, has_mode, msi_rows, stage_rows, why_refused};
ghost use Rattle.iom_ddt.specs.Words.{context_in};

use crate::Met;
use iom_bits::{Features, SV57, SV57X4, field, has_bit};

/// A word of the directory that has reserved bits ("Non-leaf DDT entry", "Device-context fields").
#[derive(Clone, Copy, PartialEq)]
pub enum DirectoryWord {
    /// A non-leaf entry.
    Entry,
    /// Of a context, tc.
    Tc,
    /// Of a context, ta.
    Ta,
    /// Of a context, fsc.
    Fsc,
    /// Of an extended context, msiptp.
    Msiptp,
    /// Of an extended context, msi_addr_mask.
    MsiAddrMask,
    /// Of an extended context, msi_addr_pattern.
    MsiAddrPattern,
    /// Of an extended context, the last word, all of which is reserved.
    Last,
}

/// Why the directory refuses what is met: the first row of the checks that applies ("Non-leaf DDT entry", "Device-context
/// configuration checks").
#[derive(Clone, Copy, PartialEq)]
pub enum Refusal {
    /// A byte of it lies outside memory.
    Outside,
    /// V is 0.
    Invalid,
    /// One of the bits from `high` down to `low` of this word is set, which must be 0.
    Reserved {
        /// The word.
        which: DirectoryWord,
        /// The highest of the bits.
        high: u8,
        /// The lowest.
        low: u8,
    },
    /// fsc.MODE, which no first stage here has.
    Mode(u8),
    /// iohgatp.MODE, which no second stage here has.
    SecondMode(u8),
    /// msiptp.MODE, which isn't Off or Flat.
    MsiMode(u8),
    /// iohgatp.PPN isn't a multiple of 4, and the second stage isn't Bare.
    Misaligned,
}

/// Why the directory of an IOMMU with these features refuses what is met; None if it is an entry that points on, or a context ("Process
/// to locate the Device-context").
pub fn why_refused(features: Features, met: &Met) -> Option<Refusal>
    ensures reason { result ≡ why_refused features met.now }
    ensures exact { IsReasonFor result (decided_by features met.now) }
{
    match met {
        Met::Entry { word: None, .. } | Met::Leaf { words: None, .. } => Some(Refusal::Outside),
        Met::Entry {
            word: Some(entry),
            ..
        } => entry_refusal(*entry),
        Met::Leaf {
            words: Some(words),
            ..
        } => context_refusal(features, *words),
    }
}

/// Why a non-leaf entry of a directory is refused, a process directory's as well, which has the same form; None if it points on
/// ("Non-leaf DDT entry").
#[tactic(auto, unfolding(crate::specs::Refusals::entry_refusal))]
pub fn entry_refusal(entry: u64) -> Option<Refusal>
    ensures row { result ≡ entry_refusal entry }
    ensures exact { IsReasonOf result (pointed_by (Some entry)) }
{
    if !has_bit(entry, 0) {
        Some(Refusal::Invalid)
    } else if field(entry, 1, 9) != 0 {
        reserved(DirectoryWord::Entry, 9, 1)
    } else if field(entry, 54, 10) != 0 {
        reserved(DirectoryWord::Entry, 63, 54)
    } else {
        None
    }
}

// Why a context is refused.
#[tactic(auto, unfolding(crate::specs::Refusals::context_refusal))]
fn context_refusal(features: Features, words: [u64; 8]) -> Option<Refusal>
    ensures row { result ≡ context_refusal features words }
    ensures exact { IsReasonOf result (with_modes features (context_in words)) }
{
    let [tc, iohgatp, ta, fsc, msiptp, mask, pattern, last] = words;
    if !has_bit(tc, 0) {
        Some(Refusal::Invalid)
    } else if field(tc, 1, 3) != 0 {
        reserved(DirectoryWord::Tc, 3, 1)
    } else if field(tc, 5, 7) != 0 {
        reserved(DirectoryWord::Tc, 11, 5)
    } else if field(tc, 12, 12) != 0 {
        reserved(DirectoryWord::Tc, 23, 12)
    } else if field(tc, 32, 32) != 0 {
        reserved(DirectoryWord::Tc, 63, 32)
    } else if field(ta, 1, 11) != 0 {
        reserved(DirectoryWord::Ta, 11, 1)
    } else if field(ta, 32, 32) != 0 {
        reserved(DirectoryWord::Ta, 63, 32)
    } else if field(fsc, 44, 16) != 0 {
        reserved(DirectoryWord::Fsc, 59, 44)
    } else {
        match msi_refusal(msiptp, mask, pattern, last) {
            Some(why) => Some(why),
            None => stage_refusal(features, fsc, iohgatp),
        }
    }
}

// Why a context is refused for what it says of its MSI page table.
fn msi_refusal(msiptp: u64, mask: u64, pattern: u64, last: u64) -> Option<Refusal>
    ensures { result ≡ first_row (msi_rows msiptp mask pattern last) }
{
    let mode = field(msiptp, 60, 4);
    if field(msiptp, 44, 16) != 0 {
        reserved(DirectoryWord::Msiptp, 59, 44)
    } else if mode > 1 {
        Some(Refusal::MsiMode(mode as u8))
    } else if field(mask, 52, 12) != 0 {
        reserved(DirectoryWord::MsiAddrMask, 63, 52)
    } else if field(pattern, 52, 12) != 0 {
        reserved(DirectoryWord::MsiAddrPattern, 63, 52)
    } else if last != 0 {
        reserved(DirectoryWord::Last, 63, 0)
    } else {
        None
    }
}

// Why a context is refused whose other bits are as they must be.
fn stage_refusal(features: Features, fsc: u64, iohgatp: u64) -> Option<Refusal>
    ensures { result ≡ first_row (stage_rows features fsc iohgatp) }
{
    let mode = field(fsc, 60, 4);
    let second_mode = field(iohgatp, 60, 4);
    if !has_mode(features.has(SV57), mode) {
        Some(Refusal::Mode(mode as u8))
    } else if !has_mode(features.has(SV57X4), second_mode) {
        Some(Refusal::SecondMode(second_mode as u8))
    } else if second_mode != 0 && field(iohgatp, 0, 44) % 4 != 0 {
        Some(Refusal::Misaligned)
    } else {
        None
    }
}

/// Whether the IOMMU has a mode of a stage, fsc.MODE or iohgatp.MODE: 10 only if it offers it ("Device-context fields").
pub fn has_mode(offered: bool, mode: u64) -> bool
    ensures { result ≡ has_mode offered mode }
{
    matches!(mode, 0 | 8 | 9 | 10) && (offered || mode != 10)
}

// Bits that must be 0.
fn reserved(which: DirectoryWord, high: u8, low: u8) -> Option<Refusal>
    ensures { result ≡ Some (Refusal.Reserved which high low) }
{
    Some(Refusal::Reserved { which, high, low })
}
