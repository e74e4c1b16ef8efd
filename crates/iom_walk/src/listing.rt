//! The path of a walk, entry by entry.

ghost use Rattle.std.specs.Prelude.{◌≡◌, ◌<◌, ◌≤◌, ◌^◌, []};
ghost use Rattle.arrayvec.specs.ArrayVec.{array_vec_len};
ghost use Rattle.iom_walk.specs.Outcome.{LeafFits, outcome_of};
ghost use Rattle.iom_walk.specs.Shape.{levels};
ghost use Rattle.iom_walk.specs.Told.{path_told};

use crate::entry::Ruling;
use crate::notes::Notes;
use crate::outcome::Outcome;
use crate::shape::Format;
use crate::source::{Got, Words};
use crate::walking::walk_from;
use arrayvec::ArrayVec;
use iom_bits::Kind;

/// A page-table entry (PTE) that a walk meets.
#[derive(Clone, Copy, PartialEq)]
pub struct PathEntry {
    /// Its address in the walk's source of words: physical, or guest-physical if the source is a guest's memory.
    pub place: u64,
    /// What was read there.
    pub got: Got,
    /// The level of its table, 0 to 4.
    pub level: u8,
    /// The row of the table of entries that decides of it.
    pub ruling: Ruling,
}

impl Default for PathEntry {
    fn default() -> PathEntry {
        PathEntry {
            place: 0,
            level: 0,
            got: Got::Outside,
            ruling: Ruling::Outside,
        }
    }
}

/// The entries that a walk meets, from that of the root on. The last is the first that isn't a pointer, or one of level 0.
pub type PathEntries = ArrayVec<PathEntry, 5>;

impl Notes for PathEntries {
    ghost use Rattle.iom_walk.specs.Noted.{kept};

    ghost next = { kept (λ entry. entry) };

    #[inline(always)]
    fn note(&mut self, entry: PathEntry) {
        if self.len() < 5 {
            self.push(entry);
        }
    }
}

/// The entries that `walk` meets, each with the row that decides of it; none if `addr` is wider than the format's shape allows. The
/// arguments are those of `walk`: `addr` is an IOVA or a guest-physical address, and `root` a PPN below 2^44.
pub fn path<W: Words>(words: &W, format: Format, root: u64, addr: u64, kind: Kind) -> PathEntries
    requires { root < 2 ^ 44 }
    ensures path { result.items ≡ path_told (W.at words.now) format root addr kind }
    ensures levels { array_vec_len result ≤ levels format.shape }
{
    let mut met = PathEntries::new();
    let _end = walk_listed(&mut met, words, format, root, addr, kind);
    met
}

/// Walks as `walk` does, with the same end, and puts the entries that it meets into `met`, an empty list: those of `path`.
#[inline(always)]
#[tactic(auto, unfolding(crate::specs::Told::path_told, crate::specs::Outcome::outcome_of), using(crate::proofs::Walks::whole))]
pub fn walk_listed<W: Words>(
    met: &mut PathEntries,
    words: &W,
    format: Format,
    root: u64,
    addr: u64,
    kind: Kind,
) -> Outcome
    requires root { root < 2 ^ 44 }
    requires empty { met.old.items ≡ [] }
    ensures path { met.new.items ≡ path_told (W.at words.now) format root addr kind }
    ensures levels { array_vec_len met.new ≤ levels format.shape }
    ensures outcome { result ≡ outcome_of (W.at words.now) format root addr kind }
    ensures leaf { LeafFits format.shape result }
{
    if format.shape.covers(addr) {
        let levels = format.shape.levels();
        walk_from(words, format, addr, kind, root, levels, false, met)
    } else {
        Outcome::Fault
    }
}
