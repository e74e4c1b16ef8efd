//! The entries that may be held and name physical memory.

ghost use Rattle.std.specs.Prelude.{ℕ, List};
ghost use Rattle.iom_core.specs.State.{State};
ghost use Rattle.iom_owed.specs.Holdings.{Keeps};
ghost use Rattle.iom_owed.specs.Naming.{AreNaming};
ghost use Rattle.iom_owed.specs.Newest.{steps_of};

use crate::holdings::Holdings;
use iom_held::Naming;

impl Holdings {
    ghost use Rattle.iom_core.specs.declared.access.Request.{Request};
    ghost use Rattle.iom_core.specs.declared.step.Step.{Step};

    /// The entries that may be held now and name a byte of the `len` ones from physical address `addr` on: as one of their frames, or of the tables
    /// that they lead a walk to (`names_memory` of `iom_every`). None if there are none: then no translation and no table that an IOMMU which
    /// took these steps may hold leads there. The range may end above 2^64.
    pub fn naming(&self, addr: u64, len: u64) -> Option<Naming>
        ensures { (ahead : List Request) (state start : State) (taken : List (Step × ℕ)) → Keeps ahead self.now state start taken →
            AreNaming ahead self.now start (steps_of taken) addr len result }
    {
        self.entries.naming(addr, len)
    }
}
