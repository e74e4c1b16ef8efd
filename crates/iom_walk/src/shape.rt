//! The shapes of page tables.

ghost use Rattle.std.specs.Prelude.{◌≡◌, ◌<◌, ◌≤◌, ◌^◌};

use crate::rules::{Class, EntryRules};
use iom_bits::{Features, field, has_bit};

/// The mode of a page table: how many levels there are, how an address is divided into indexes, and how wide it may be (RISC-V
/// Privileged Architecture, "Sv39", "Sv48", "Sv57" and "Two-Stage Address Translation").
#[derive(Clone, Copy)]
pub enum Shape {
    /// Three levels. Bits 63:39 of an address repeat bit 38.
    Sv39,
    /// Three levels, of which the root has four times as many entries. An address, a guest-physical one, is below
    /// 2^41.
    Sv39x4,
    /// Four levels. Bits 63:48 of an address repeat bit 47.
    Sv48,
    /// Four levels, of which the root has four times as many entries. An address, a guest-physical one, is below
    /// 2^50.
    Sv48x4,
    /// Five levels. Bits 63:57 of an address repeat bit 56.
    Sv57,
    /// Five levels, of which the root has four times as many entries. An address, a guest-physical one, is below
    /// 2^59.
    Sv57x4,
}

/// The format of page tables: their shape, and the rules by which their entries are judged.
#[derive(Clone, Copy)]
pub struct Format {
    /// The shape.
    pub shape: Shape,
    /// The rules.
    pub rules: EntryRules,
}

impl Format {
    ghost use Rattle.iom_walk.specs.Shape.{user_format};

    /// The format of tables of this shape, for accesses of user mode.
    #[inline(always)]
    pub fn of_user(shape: Shape, features: Features) -> Format
        ensures { result ≡ user_format shape features }
    {
        Format {
            shape,
            rules: EntryRules {
                features,
                class: Class::User,
            },
        }
    }
}

impl Shape {
    ghost use Rattle.iom_walk.specs.Shape.{levels, widening, index_of, is_in_width};

    /// How many levels there are. The level of the root is one less; that of the last table is 0.
    pub fn levels(self) -> u8
        ensures value { result ≡ levels self }
        ensures most { result ≤ 5 }
    {
        match self {
            Shape::Sv39 | Shape::Sv39x4 => 3,
            Shape::Sv48 | Shape::Sv48x4 => 4,
            Shape::Sv57 | Shape::Sv57x4 => 5,
        }
    }

    // By how many bits the index into the root is wider than the nine of the others.
    fn widening(self) -> u32
        ensures value { result ≡ widening self }
        ensures most { result ≤ 2 }
    {
        match self {
            Shape::Sv39 | Shape::Sv48 | Shape::Sv57 => 0,
            Shape::Sv39x4 | Shape::Sv48x4 | Shape::Sv57x4 => 2,
        }
    }

    /// The index of the entry that `addr`, an IOVA or a guest-physical address, is met at in a table of level `level`, VPN[level]
    /// in the standard: below 2^11 in a root of Sv39x4, Sv48x4 or Sv57x4, below 2^9 in all other tables.
    #[tactic(auto, unfolding(crate::specs::Shape::index_of))]
    pub(crate) fn index(self, addr: u64, level: u8) -> u64
        requires { level < levels self }
        ensures index { result ≡ index_of self addr level }
        ensures fits { result < 2 ^ 11 }
    {
        let low = 12 + 9 * level as u32;
        if level + 1 == self.levels() {
            field(addr, low, 9 + self.widening())
        } else {
            field(addr, low, 9)
        }
    }

    /// Whether `addr`, an IOVA or a guest-physical address, is within the width that the shape allows; one that isn't ends in a
    /// page fault.
    #[tactic(auto, unfolding(crate::specs::Shape::is_in_width))]
    pub fn covers(self, addr: u64) -> bool
        ensures { result ≡ is_in_width self addr }
    {
        let width = 9 * u32::from(self.levels()) + self.widening();
        let high = field(addr, 12 + width, 64 - (12 + width));
        if self.widening() == 0 && has_bit(addr, 12 + (width - 1)) {
            high == (1 << (64 - (12 + width))) - 1
        } else {
            high == 0
        }
    }
}
