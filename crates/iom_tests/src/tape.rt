//! A bus of bytes that takes a number of accesses, and refuses all later ones.

use iom_mem::Ram;
use iom_virtq::{Access, Bus};

/// A bus over a memory whose physical addresses are the IOVAs.
#[derive(Drop)]
pub struct Tape {
    /// The memory.
    pub ram: Ram,
    /// How many accesses it still takes.
    pub left: u64,
}

impl Bus for Tape {
    ghost use Rattle.std.specs.Prelude.{◌≡◌};
    ghost use Rattle.iom_tests.specs.Tapes.{taped, tape};

    ghost answers = { λ old ask reply new. (reply ≡ (taped (tape old.ram old.left) ask).reply)
        × (tape new.ram new.left ≡ (taped (tape old.ram old.left) ask).tape) };

    #[tactic(auto, unfolding(crate::specs::Tapes::taped))]
    fn read(&mut self, iova: u64, out: &mut [u8]) -> Access {
        if self.left == 0 || !self.ram.read(iova, out) {
            return Access::Outside;
        }
        self.left -= 1;
        Access::Ok
    }

    #[tactic(auto, unfolding(crate::specs::Tapes::taped))]
    fn write(&mut self, iova: u64, bytes: &[u8]) -> Access {
        if self.left == 0 || !self.ram.write(iova, bytes) {
            return Access::Outside;
        }
        self.left -= 1;
        Access::Ok
    }
}
