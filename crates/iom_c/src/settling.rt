//! What any IOMMU may hold, kept beside a platform where that is asked for.

ghost use Rattle.std.specs.Prelude.{◌≡◌, ℕ, List, [], ◌∷◌};
ghost use Rattle.std.specs.Bool.{OnFalse};
ghost use Rattle.iom_core.specs.State.{State, state_on};
ghost use Rattle.iom_core.specs.Table.{next};
ghost use Rattle.iom_core.specs.declared.step.Step.{Step};
ghost use Rattle.iom_owed.specs.Holdings.{Keeps};
ghost use Rattle.iom_c.specs.Settling.{BeginsAnew, BegunIf, HoldsNothing, HoldsOn};

use iom_core::{Board, Step};
use iom_mem::Region;
use iom_owed::Holdings;
use std::alloc::Global;

/// What is kept of what any IOMMU may hold after the steps of a platform.
#[derive(Drop)]
pub enum Settling {
    /// Nothing: it isn't asked for.
    NotKept,
    /// What any IOMMU may hold, and the requests that the steps made.
    Kept(Holdings),
    /// No more is known, since memory was refused for it.
    Lost,
}

// Follows a step that this board takes next in front of this memory. Answers whether memory was refused for that.
fn is_refused<M: Region>(
    holdings: &mut Holdings,
    board: &Board,
    ram: &M,
    step: &Step,
    number: u64,
) -> bool
    ensures { (start : State) (taken : List (Step × ℕ)) → Keeps [] holdings.old (state_on (M.memory ram.now) board.now) start taken →
        OnFalse result (Keeps [] holdings.new (next (state_on (M.memory ram.now) board.now) step.now).state start ((step.now, number) ∷ taken)) }
{
    let followed = holdings.follow(board, ram, step, number);
    followed.is_err()
}

impl Settling {
    /// Nothing held and no request made yet. It takes no memory.
    pub fn begun(alloc: Global) -> Settling
        ensures { HoldsNothing result }
    {
        Settling::Kept(Holdings::new(alloc))
    }

    /// Nothing held and no request made yet if it is asked for, else nothing is kept.
    pub fn begun_if(alloc: Global, keeps: bool) -> Settling
        ensures { BegunIf keeps result }
    {
        if keeps {
            Settling::begun(alloc)
        } else {
            Settling::NotKept
        }
    }

    /// Nothing is held any more: begins anew, unless nothing is kept.
    pub fn begin_anew(&mut self, alloc: Global)
        ensures { BeginsAnew self.old self.new }
    {
        if !matches!(self, Settling::NotKept) {
            *self = Settling::begun(alloc);
        }
    }

    /// Follows a step that this board takes next in front of this memory, under the caller's `number`: call it before the step. If memory
    /// is refused for that, no more is known.
    pub fn follow<M: Region>(&mut self, board: &Board, ram: &M, step: &Step, number: u64)
        ensures { HoldsOn self.old (state_on (M.memory ram.now) board.now) step.now number self.new }
    {
        let is_lost = match self {
            Settling::Kept(holdings) => is_refused(holdings, board, ram, step, number),
            Settling::NotKept | Settling::Lost => false,
        };
        if is_lost {
            *self = Settling::Lost;
        }
    }
}
