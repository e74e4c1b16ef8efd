ghost use Rattle.std.specs.Prelude.{◌≡◌};
ghost use Rattle.iom_regs.specs.Offers.{capabilities_of, icvec_of};

use iom_bits::{Features, ROWS, Vectors, field, shown_bits};

// The fields of capabilities ("IOMMU capabilities"): the version, 1.0, and the bit of each paging mode that every IOMMU here has.
const VERSION: u64 = 0x10;

const SV39: u32 = 9;

const SV48: u32 = 10;

const SV39X4: u32 = 17;

const SV48X4: u32 = 18;

// IGS, which the word of features has at the same bits.
const IGS: u64 = 3 << 28;

// PAS: physical addresses of 56 bits.
const PAS_OF_56: u64 = 56 << 32;

// The fields that every IOMMU here has.
const EACH: u64 = VERSION + (1 << SV39) + (1 << SV48) + (1 << SV39X4) + (1 << SV48X4) + PAS_OF_56;

/// The value of capabilities with these features ("IOMMU capabilities"): of them IGS and those that the register shows. Svnapot, the number of
/// vectors and delays have no bit there.
#[tactic(auto, unfolding(iom_bits::specs::Features::rows))]
pub fn capabilities(features: Features) -> u64
    ensures { result ≡ capabilities_of features }
{
    EACH | (features.word() & (IGS | shown_bits(&ROWS)))
}

/// icvec after a write of `value` ("Interrupt-cause-to-vector register"): civ (bits 3:0) and fiv (bits 7:4), of each only the
/// lowest bits that number a vector: 0, 1 or 2 of them.
pub fn icvec_after_write(vectors: Vectors, value: u64) -> u64
    ensures value { result ≡ icvec_of vectors value }
    ensures whole { icvec_of vectors result ≡ result }
{
    match vectors {
        Vectors::One => 0,
        Vectors::Two => field(value, 0, 1) + (field(value, 4, 1) << 4),
        Vectors::Four => field(value, 0, 2) + (field(value, 4, 2) << 4),
    }
}
