//! The two formats of device contexts.

ghost use Rattle.std.specs.Prelude.{◌≡◌, ◌↔◌, ◌<◌, ◌^◌, ℕ};
ghost use Rattle.iom_ddt.specs.Formats.{context_bytes, ddi, context_format, id_part, words_in};
ghost use Rattle.iom_ddt.specs.declared.formats.ContextFormat.{ContextFormat};

use iom_bits::{Features, MSI_FLAT, field};
use iom_mem::{Region, words_at};

/// The format of every device context of an IOMMU ("Device-directory-table").
#[derive(Clone, Copy, PartialEq)]
pub enum ContextFormat {
    /// Base format: 32 bytes, four words.
    Base,
    /// Extended format: 64 bytes, eight words.
    Extended,
}

impl ContextFormat {
    /// The format under these features: extended with MSI_FLAT, else base. No context chooses.
    #[tactic(auto, unfolding(crate::specs::Formats::context_format))]
    pub fn of(features: Features) -> ContextFormat
        ensures { result ≡ context_format features }
    {
        if features.has(MSI_FLAT) {
            ContextFormat::Extended
        } else {
            ContextFormat::Base
        }
    }
}

/// The part of a device id of 24 bits that an entry of this level stands for, which is the first of those ids: all bits from its index on, and
/// 0 below. At level 1 those above bit 6, at level 2 those above bit 15; in extended format those above bit 5, and above bit 14. An entry of
/// level 0 stands for this id alone.
pub fn id_part(format: ContextFormat, level: u8, did: u32) -> u32
    ensures { result ≡ id_part format level did }
{
    match (format, level) {
        (_, 0) => did,
        (ContextFormat::Base, 1) => did >> 7 << 7,
        (ContextFormat::Base, _) => did >> 16 << 16,
        (ContextFormat::Extended, 1) => did >> 6 << 6,
        (ContextFormat::Extended, _) => did >> 15 << 15,
    }
}

/// Of two device ids of 24 bits an entry above the contexts stands for both or for neither: they have the same part exactly if they have the
/// same index at its level and above.
pub fn parts_of_ids_are_indexes()
    ensures lower { (format : ContextFormat) (did other : ℕ) → did < 2 ^ 24 → other < 2 ^ 24 → (id_part format 1 did ≡ id_part format 1 other)
        ↔ ((ddi format did 1 ≡ ddi format other 1) × (ddi format did 2 ≡ ddi format other 2)) }
    ensures upper { (format : ContextFormat) (did other : ℕ) → did < 2 ^ 24 → other < 2 ^ 24 →
        (id_part format 2 did ≡ id_part format 2 other) ↔ (ddi format did 2 ≡ ddi format other 2) }
{}

// The part of a device id that is the index into a table of this level, DDI[0] to DDI[2]: bits 6:0, 15:7 or 23:16, in extended format 5:0,
// 14:6 or 23:15. The table of level 0 has the contexts.
pub(crate) fn ddi(format: ContextFormat, did: u64, level: u8) -> u64
    ensures part { result ≡ ddi format did level }
    ensures fits { result < 2 ^ 9 }
{
    match (format, level) {
        (ContextFormat::Base, 0) => field(did, 0, 7),
        (ContextFormat::Base, 1) => field(did, 7, 9),
        (ContextFormat::Base, _) => field(did, 16, 8),
        (ContextFormat::Extended, 0) => field(did, 0, 6),
        (ContextFormat::Extended, 1) => field(did, 6, 9),
        (ContextFormat::Extended, _) => field(did, 15, 9),
    }
}

// How many bytes a context has.
pub(crate) fn context_bytes(format: ContextFormat) -> u64
    ensures size { result ≡ context_bytes format }
    ensures fits { result < 2 ^ 7 }
{
    match format {
        ContextFormat::Base => 32,
        ContextFormat::Extended => 64,
    }
}

// The eight words of the context at a physical address; in base format the last four are 0. None if a byte of it is outside memory.
pub(crate) fn words_in<M: Region>(ram: &M, format: ContextFormat, place: u64) -> Option<[u64; 8]>
    ensures { result ≡ words_in format (M.memory ram.now) place }
{
    match format {
        ContextFormat::Base => {
            let words: [u64; 4] = words_at(ram, place)?;
            let [tc, iohgatp, ta, fsc] = words;
            Some([tc, iohgatp, ta, fsc, 0, 0, 0, 0])
        }
        ContextFormat::Extended => words_at(ram, place),
    }
}
