//! The pieces of a line.

ghost use Rattle.std.specs.Prelude.{◌≡◌, ◌≤◌, length};

use crate::ranges::Range;

/// A number, by what the help calls it.
#[derive(Clone, Copy)]
pub enum Operand {
    /// ADDR, a physical address.
    Address,
    /// SIZE, in bytes.
    Size,
    /// VALUE.
    Value,
    /// OFF, the offset of a register.
    Offset,
    /// DID, a device id.
    DeviceId,
    /// IOVA.
    Iova,
    /// LEN, in bytes.
    Length,
    /// N, a block device, counted from 0.
    Device,
    /// BYTE of a disk.
    Byte,
    /// I, a place or a part, counted from 0.
    Place,
    /// MAX, how many steps at most.
    Most,
    /// BASE of memory, a physical address.
    Base,
    /// SECTORS, of 512 bytes each.
    Sectors,
}

/// The words of which one follows the first word of a line.
#[derive(Clone, Copy)]
pub enum Choice {
    /// `read` and `write`.
    Access,
    /// Those of `dev`.
    Device,
    /// The kinds of items.
    Kind,
    /// `context` and `page`.
    Cache,
    /// `cmd` and `fault`.
    Queue,
    /// Those of `stale`.
    Stale,
    /// `run`.
    Run,
    /// The registers that may be busy.
    Busy,
}

/// A piece of a line.
#[derive(Clone, Copy)]
pub enum Piece {
    /// The word that it begins with.
    Word(&'static [u8]),
    /// A word that follows it, one of some.
    Among(&'static [u8], Choice),
    /// A number.
    Number(Operand, Range),
    /// A register of the IOMMU, by its name.
    Register,
    /// A register of a block device, by its name.
    BlockRegister,
    /// 1 to 64 bytes in hex.
    Data,
    /// Bytes in hex.
    Hex,
    /// All words that are left.
    Item,
}

impl Operand {
    ghost use Rattle.std.specs.Prelude.{◌≡◌, ◌≤◌, length};
    ghost use Rattle.iom_slips.specs.Patterns.{name_of};

    /// What the help calls it, at most 7 bytes.
    #[tactic(auto, unfolding(crate::specs::Patterns::name_of))]
    pub fn name(self) -> &'static [u8]
        ensures text { result.now ≡ name_of self }
        ensures short { length result.now ≤ 7 }
    {
        match self {
            Operand::Address => b"ADDR",
            Operand::Size => b"SIZE",
            Operand::Value => b"VALUE",
            Operand::Offset => b"OFF",
            Operand::DeviceId => b"DID",
            Operand::Iova => b"IOVA",
            Operand::Length => b"LEN",
            Operand::Device => b"N",
            Operand::Byte => b"BYTE",
            Operand::Place => b"I",
            Operand::Most => b"MAX",
            Operand::Base => b"BASE",
            Operand::Sectors => b"SECTORS",
        }
    }
}

impl Choice {
    ghost use Rattle.std.specs.Prelude.{◌≡◌, ◌≤◌, length};
    ghost use Rattle.iom_slips.specs.Patterns.{words_among};

    /// The words, at most 41 bytes.
    #[tactic(auto, unfolding(crate::specs::Patterns::words_among))]
    pub fn words(self) -> &'static [u8]
        ensures text { result.now ≡ words_among self }
        ensures short { length result.now ≤ 41 }
    {
        match self {
            Choice::Access => b"read or write",
            Choice::Device => b"read, write, step, show or run",
            Choice::Kind => b"cmd, fault, context, dir, pte, msi or u64",
            Choice::Cache => b"context or page",
            Choice::Queue => b"cmd or fault",
            Choice::Busy => b"ddtp, cq or fq",
            Choice::Stale => b"read, write, context or page",
            Choice::Run => b"run",
        }
    }
}
