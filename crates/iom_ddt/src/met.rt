//! What is met from ddtp to a device's context.

ghost use Rattle.std.specs.Prelude.{◌≡◌};

use crate::notes::Notes;
use arrayvec::ArrayVec;

/// What is met from ddtp to a device's context. `place` is its physical address.
#[derive(Clone, Copy, PartialEq)]
pub enum Met {
    /// A non-leaf DDT entry, 8 bytes, that points to a further table; None if a byte of it is outside memory.
    Entry { place: u64, word: Option<u64> },
    /// A leaf DDT entry: the eight words of the context, 64 bytes; in base format it has 32 bytes, and the last four words are 0. None if a
    /// byte of it is outside memory.
    Leaf { place: u64, words: Option<[u64; 8]> },
}

impl Default for Met {
    fn default() -> Met {
        Met::Entry {
            place: 0,
            word: None,
        }
    }
}

/// What is met on the way to a context, from the root's entry on: at most one item for each of the 1 to 3 levels.
pub type DirectoryPath = ArrayVec<Met, 3>;

impl Notes for DirectoryPath {
    ghost use Rattle.iom_ddt.specs.Directory.{kept};

    ghost next = { kept };

    #[inline(always)]
    fn note(&mut self, met: Met) {
        if self.len() < 3 {
            self.push(met);
        }
    }
}
