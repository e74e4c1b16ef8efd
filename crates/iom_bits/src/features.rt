//! The features that an IOMMU may have or not, each a row of a table.

ghost use Rattle.std.specs.Prelude.{◌≡◌, ◌<◌, ◌↔◌, map, true, IsTrue, IsSome, IfSome, bit_or};
ghost use Rattle.iom_bits.specs.Bits.{has_bit};
ghost use Rattle.iom_bits.specs.Features.{all_bits, are_apart, are_placed, beside, has_messages, has_svnapot, has_wires, interrupts_word, is_offer, no_features, rows, shown_bits, vectors_of, vectors_word};
ghost use Rattle.iom_bits.specs.Rows.{as_feature};

use crate::bit_fields::has_bit;
use std::marker::Model;

/// Bit of Sv57, a first stage of five levels.
pub const SV57: u32 = 11;

/// Bit of Svpbmt: bits 62:61 of a leaf are a memory type.
pub const SVPBMT: u32 = 15;

/// Bit of Sv57x4, a second stage of five levels.
pub const SV57X4: u32 = 19;

/// Bit of MSI_FLAT: every device context is of the extended format, of 64 bytes, and may have a flat MSI page table.
pub const MSI_FLAT: u32 = 22;

/// Bit of NL: an IOTINVAL may drop entries that aren't leaves.
pub const NL: u32 = 42;

/// Bit of S: the address of an IOTINVAL may stand for a range.
pub const S: u32 = 43;

/// Bit of delays: a write of ddtp, cqcsr or fqcsr acts later. It isn't in register capabilities.
pub const DELAYS: u32 = 59;

/// A feature: its name in texts, its bit, and whether register capabilities has that bit.
#[derive(Clone, Copy)]
pub struct Row {
    /// Its name in texts.
    pub name: &'static [u8],
    /// Its bit, below 64, in the word of features.
    pub bit: u32,
    /// Whether register capabilities has that bit too.
    pub shown: bool,
}

/// The features that have a name in texts (RISC-V IOMMU Architecture 1.0, "IOMMU capabilities").
#[rattlefmt::skip]
pub const ROWS: [Row; 7] = [
    Row { name: b"sv57", bit: SV57, shown: true },
    Row { name: b"svpbmt", bit: SVPBMT, shown: true },
    Row { name: b"sv57x4", bit: SV57X4, shown: true },
    Row { name: b"msi_flat", bit: MSI_FLAT, shown: true },
    Row { name: b"nl", bit: NL, shown: true },
    Row { name: b"s", bit: S, shown: true },
    Row { name: b"delays", bit: DELAYS, shown: false },
];

// Beside them: the bits of IGS; Svnapot is left out, two vectors, four vectors.
const WIRES: u32 = 28;

const CHOICE: u32 = 29;

const NO_SVNAPOT: u32 = 56;

const TWO_VECTORS: u32 = 57;

const FOUR_VECTORS: u32 = 58;

const BESIDE: u64 = (3 << WIRES) + (7 << NO_SVNAPOT);

/// How an IOMMU's interrupts reach a hart: IGS of capabilities (RISC-V IOMMU Architecture 1.0, "IOMMU capabilities").
#[derive(Clone, Copy)]
pub enum Interrupts {
    /// Messages, IGS 0.
    Messages,
    /// Wires, IGS 1.
    Wires,
    /// Either, IGS 2: fctl chooses.
    Choice,
}

impl Interrupts {
    /// The bits that say so in a word of features, which are those of capabilities.
    pub fn word(self) -> u64
        ensures { result ≡ interrupts_word self }
    {
        match self {
            Interrupts::Messages => 0,
            Interrupts::Wires => 1 << WIRES,
            Interrupts::Choice => 1 << CHOICE,
        }
    }
}

/// How many interrupt vectors an IOMMU has (RISC-V IOMMU Architecture 1.0, "Interrupt-cause-to-vector register").
#[derive(Clone, Copy)]
pub enum Vectors {
    /// One, for every cause.
    One,
    /// Two.
    Two,
    /// Four.
    Four,
}

impl Vectors {
    /// The bits that say so in a word of features.
    pub fn word(self) -> u64
        ensures { result ≡ vectors_word self }
    {
        match self {
            Vectors::One => 0,
            Vectors::Two => 1 << TWO_VECTORS,
            Vectors::Four => 1 << FOUR_VECTORS,
        }
    }
}

/// The features that an IOMMU has beside Sv39, Sv48, Sv39x4 and Sv48x4, which every IOMMU here has, as a word: a bit for each of `ROWS`,
/// IGS in bits 29:28, bit 56 where Svnapot is left out, bit 57 for two interrupt vectors, bit 58 for four, and no other bit.
#[derive(Clone, Copy)]
pub struct Features {
    word: u64,
}

impl Model for Features {
    ghost use Rattle.std.specs.Prelude.{◌≡◌, true};
    ghost use Rattle.iom_bits.specs.Features.{Features, is_offer};

    ghost Value = { Features };

    ghost view = { λ features. features.word };

    ghost inverse = { λ word. record { word = word } };

    ghost invariant = { λ features. is_offer features.word ≡ true };
}

impl Features {
    /// None of the rows, interrupts by wire, no Svnapot, and one interrupt vector.
    #[tactic(auto, unfolding(crate::specs::Features::is_offer, crate::specs::Features::rows, crate::specs::Bits::has_bit))]
    pub fn none() -> Features
        ensures { result ≡ no_features }
    {
        Features {
            word: (1 << WIRES) + (1 << NO_SVNAPOT),
        }
    }

    /// The features of a word; None if it has another bit, IGS 3, or both bits of vectors.
    #[tactic(auto, unfolding(crate::specs::Features::is_offer, crate::specs::Features::rows))]
    pub fn of_word(word: u64) -> Option<Features>
        ensures offer { IsSome result ↔ IsTrue (is_offer word) }
        ensures word { IfSome result (λ features. features ≡ word) }
    {
        let known = BESIDE | all_bits(&ROWS);
        let is_igs = !(has_bit(word, WIRES) && has_bit(word, CHOICE));
        let are_vectors = !(has_bit(word, TWO_VECTORS) && has_bit(word, FOUR_VECTORS));
        if word & known == word && is_igs && are_vectors {
            Some(Features { word })
        } else {
            None
        }
    }

    /// The word of these features.
    pub fn word(self) -> u64
        ensures word { result ≡ self }
        ensures offer { is_offer result ≡ true }
    {
        self.word
    }

    /// Whether the feature with this bit is one of them.
    pub fn has(self, bit: u32) -> bool
        requires { bit < 64 }
        ensures { result ≡ has_bit self bit }
    {
        has_bit(self.word, bit)
    }

    /// Svnapot: whether a leaf at level 0 with N set maps 64 KiB.
    pub fn has_svnapot(self) -> bool
        ensures { result ≡ has_svnapot self }
    {
        !has_bit(self.word, NO_SVNAPOT)
    }

    /// Whether interrupts may go by wire: IGS 1 or 2.
    pub fn has_wires(self) -> bool
        ensures { result ≡ has_wires self }
    {
        has_bit(self.word, WIRES) || has_bit(self.word, CHOICE)
    }

    /// Whether interrupts may be messages: IGS 0 or 2.
    pub fn has_messages(self) -> bool
        ensures { result ≡ has_messages self }
    {
        !has_bit(self.word, WIRES)
    }

    /// How many interrupt vectors icvec chooses from.
    pub fn vectors(self) -> Vectors
        ensures { result ≡ vectors_of self }
    {
        if has_bit(self.word, TWO_VECTORS) {
            Vectors::Two
        } else if has_bit(self.word, FOUR_VECTORS) {
            Vectors::Four
        } else {
            Vectors::One
        }
    }
}

/// The bits of rows.
pub fn all_bits(rows: &[Row]) -> u64
    requires { are_placed (map as_feature rows.now) ≡ true }
    ensures { result ≡ all_bits (map as_feature rows.now) }
{
    match rows {
        [] => 0,
        [row, rest @ ..] => (1 << row.bit) | all_bits(rest),
    }
}

/// The bits of those rows that register capabilities has.
pub fn shown_bits(rows: &[Row]) -> u64
    requires { are_placed (map as_feature rows.now) ≡ true }
    ensures { result ≡ shown_bits (map as_feature rows.now) }
{
    match rows {
        [] => 0,
        [row, rest @ ..] if row.shown => (1 << row.bit) | shown_bits(rest),
        [_, rest @ ..] => shown_bits(rest),
    }
}

/// A law of the rows: no bit and no name stands twice, and what register capabilities has lies below what it hasn't.
#[tactic(auto, unfolding(crate::specs::Features::rows))]
pub fn rows_are_apart()
    ensures apart { are_apart rows ≡ true }
    ensures placed { are_placed rows ≡ true }
{}
