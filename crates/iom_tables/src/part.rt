use crate::Way;
use iom_ddt::Met;
use iom_regs::Mode;
use iom_walk::PathEntry;

/// A device id has 24 bits.
pub(crate) const DEVICE_ID_END: u32 = 1 << 24;

/// One thing that is looked at to lead a request.
#[derive(Clone, Copy)]
pub enum Part {
    /// ddtp: its mode, and its PPN, 44 bits, which is that of the directory's root if the mode has a directory.
    Ddtp {
        mode: Mode,
        root: u64,
    },
    /// An item of the device directory, at its physical address.
    Directory(Met),
    /// What breaks the width rule of a table, in place of the entries that it has there.
    Wide(Wide),
    /// An entry of the first stage, whose place is guest-physical under a second stage, else physical; `addr` is the physical address that
    /// it was read at, None if the second stage leads its place nowhere.
    First {
        entry: PathEntry,
        addr: Option<u64>,
    },
    /// An entry of the second stage, at its physical place, on the way from the guest-physical address `guest`, at most 59 bits.
    Second {
        guest: u64,
        entry: PathEntry,
    },
    /// The entry of an interrupt file in the MSI page table of the context, at its physical place, in place of the second stage for the
    /// address `guest` that the first stage reached; `word` is its first word, None if one of its two words is outside memory.
    File {
        guest: u64,
        place: u64,
        word: Option<u64>,
    },
    /// The way that the request is led.
    End(Way),
}

/// A device id that is too wide for the directory ("Process to locate the Device-context"), or an address that is too wide for a stage
/// ("Sv39", "Sv48", "Sv57" and "Guest Physical Address Translation" of RISC-V Privileged Architecture).
#[derive(Clone, Copy, PartialEq)]
pub enum Wide {
    /// A device id, below 2^24, with bits above those that the directory's levels take.
    Directory { did: u32 },
    /// An IOVA whose high bits don't repeat the highest one that the first stage takes.
    First { iova: u64 },
    /// A guest-physical address with bits above those that the second stage takes.
    Second { guest: u64 },
}

impl Default for Part {
    fn default() -> Part {
        Part::End(Way::Register)
    }
}
