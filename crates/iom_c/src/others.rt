//! What holdings mean if others write memory between steps.

ghost use Rattle.std.specs.Prelude.{ℕ, List, []};
ghost use Rattle.iom_mem.specs.Memory.{Memory};
ghost use Rattle.iom_core.specs.Others.{IsWritten, stores_of};
ghost use Rattle.iom_core.specs.State.{State};
ghost use Rattle.iom_core.specs.Table.{with_memory};
ghost use Rattle.iom_core.specs.declared.step.Step.{Step};
ghost use Rattle.iom_owed.specs.Holdings.{HoldingsView, Keeps};
ghost use Rattle.iom_c.specs.Settling.{uncounted};

/// The law of holdings beside a platform whose memory others write too, any bytes at once: that leaves the holdings as they are, and they go
/// along with the hart's stores that stand for it. These have the number 0, and no step of a handle has that. The function does nothing.
pub fn others_leave_holdings()
    ensures { (holdings : HoldingsView) (state start : State) (taken : List (Step × ℕ)) (memory : Memory) →
        Keeps [] holdings state start taken → IsWritten state.machine.memory memory →
        Keeps [] holdings (with_memory state memory) start (uncounted (stores_of memory.base memory.bytes) taken) }
{}
