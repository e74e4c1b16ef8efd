//! How a walk ends.

ghost use Rattle.std.specs.Prelude.{◌≡◌, ◌<◌, ◌^◌, ◌||◌};
ghost use Rattle.iom_walk.specs.Verdict.{is_global};
ghost use Rattle.iom_walk.specs.Outcome.{leaf_of, pages_of};

use crate::entry::{GLOBAL, NAPOT, pages_at, ppn_of};
use iom_bits::has_bit;

/// A mapping that a walk found.
#[derive(Clone, Copy, PartialEq)]
pub struct Leaf {
    /// The address that the walk's address stands for, divided by 4096; below 2^44. It is a physical address, or a guest-physical one if
    /// another stage follows.
    pub frame: u64,
    /// The level that the leaf was met at, below the number of levels. It maps 2^(9 * level) pages of 4096 bytes, or sixteen if `napot` is
    /// set.
    pub level: u8,
    /// Whether the leaf or an entry before it has G set: the mapping belongs to every address space.
    pub global: bool,
    /// Whether the leaf has N set, and so maps 64 KiB ("Svnapot").
    pub napot: bool,
}

/// How a walk ends.
#[derive(Clone, Copy, PartialEq)]
pub enum Outcome {
    /// The address is mapped.
    Leaf(Leaf),
    /// An entry lies outside memory.
    Outside,
    /// The entry at this guest-physical address couldn't be read.
    Guest(u64),
    /// A page fault.
    Fault,
}

/// The mapping of `addr`, an IOVA or a guest-physical address, by the leaf `word` of this level, 0 to 4; `global` says whether an
/// entry before it has G set.
#[tactic(auto, using(crate::proofs::Frames::frame_fits))]
pub fn leaf_of(word: u64, addr: u64, level: u8, global: bool) -> Leaf
    requires { level < 5 }
    ensures leaf { result ≡ leaf_of (global || is_global word) addr level word }
    ensures fits { result.frame < 2 ^ 44 }
{
    let (ppn, pages) = (ppn_of(word), pages_of(word, level));
    Leaf {
        frame: ppn - ppn % pages + (addr >> 12) % pages,
        level,
        global: global || has_bit(word, GLOBAL),
        napot: has_bit(word, NAPOT),
    }
}

// How many pages of 4096 bytes this leaf of this level, 0 to 4, maps.
fn pages_of(word: u64, level: u8) -> u64
    requires { level < 5 }
    ensures value { result ≡ pages_of level word }
    ensures some { 0 < result }
{
    if has_bit(word, NAPOT) {
        16
    } else {
        pages_at(level)
    }
}
