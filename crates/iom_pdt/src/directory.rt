//! Process directories, and the parts of process ids.

ghost use Rattle.std.specs.Prelude.{◌≡◌, ◌<◌, ◌≤◌, ◌^◌};
ghost use Rattle.iom_pdt.specs.Directories.{is_too_wide, levels_of, pdi};

use iom_bits::{Number, field};

/// How many levels of tables a process directory has: pdtp.MODE ("Process-directory-table").
#[derive(Clone, Copy, PartialEq)]
pub enum Depth {
    /// PD8: one, for process ids of 8 bits.
    One,
    /// PD17: two, for process ids of 17 bits.
    Two,
    /// PD20: three, for process ids of 20 bits.
    Three,
}

/// The process directory of a device, by pdtp.
#[derive(Clone, Copy, PartialEq)]
pub struct ProcessDirectory {
    /// How many levels of tables it has.
    pub depth: Depth,
    /// pdtp.PPN: the root table, its address divided by 4096; guest-physical under a second stage, else physical.
    pub root: Number<44>,
}

// How many levels there are.
pub(crate) fn levels_of(depth: Depth) -> u8
    ensures value { result ≡ levels_of depth }
    ensures some { 1 ≤ result }
    ensures most { result ≤ 3 }
{
    match depth {
        Depth::One => 1,
        Depth::Two => 2,
        Depth::Three => 3,
    }
}

/// Whether a process id has bits above those that the directory's levels take as indexes: above bit 7 for PD8, above bit 16 for PD17. Its
/// requests are denied with cause 260 ("Process to translate an IOVA").
pub fn is_too_wide(depth: Depth, id: Number<20>) -> bool
    ensures { result ≡ is_too_wide depth id }
{
    match depth {
        Depth::One => id.get() >= 1 << 8,
        Depth::Two => id.get() >= 1 << 17,
        Depth::Three => false,
    }
}

// The part of a process id that is the index into a table of this level, PDI[0] to PDI[2]: bits 7:0, 16:8 or 19:17. The table of level 0 has
// the contexts.
pub(crate) fn pdi(id: Number<20>, level: u8) -> u64
    ensures part { result ≡ pdi id level }
    ensures fits { result < 2 ^ 9 }
{
    let id = id.get();
    match level {
        0 => field(id, 0, 8),
        1 => field(id, 8, 9),
        _ => field(id, 17, 3),
    }
}
