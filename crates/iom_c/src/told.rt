ghost use Rattle.std.specs.Prelude.{◌≡◌, IfOk};
ghost use Rattle.iom_core.specs.Reach.{Reaches};
ghost use Rattle.iom_core.specs.State.{state_on};
ghost use Rattle.iom_core.specs.Table.{next};
ghost use Rattle.iom_c.specs.Keeping.{copied, GoesOn};

use crate::kept::Kept;
use crate::settling::Settling;
use iom_account::History;
use iom_core::{Answer, Board, Step};
use iom_mem::WritableRegion;
use std::alloc::{AllocError, Global};

/// The account of the steps of a platform, each by its number.
#[derive(Drop)]
pub struct Told {
    /// The steps that filled the entries in the caches.
    pub history: History,
    /// Why the last steps went as they did, as many and such as were asked for.
    pub kept: Kept,
    /// What any IOMMU may hold, where that is kept.
    pub settling: Settling,
}

impl Told {
    /// An equal history, with no reason yet, and room for as many of the same steps. What any IOMMU may hold isn't kept.
    pub fn copied(&self, alloc: Global) -> Result<Told, AllocError>
        ensures { IfOk result (λ copy. copy ≡ copied self.now) }
    {
        Ok(Told {
            history: self.history.copied(),
            kept: self.kept.emptied(alloc)?,
            settling: Settling::NotKept,
        })
    }

    /// Carries out a step of a board in front of a memory, under its number, and puts its answer. The history goes along with it, and so does
    /// what any IOMMU may hold, where that is kept. Its reason is kept. If there is no room for one, none is made, and the tables are not
    /// walked for it.
    #[tactic(auto, using(iom_core::proofs::Interrupted::reaches))]
    pub fn step<M: WritableRegion>(
        &mut self,
        board: &mut Board,
        ram: &mut M,
        step: &Step,
        number: u64,
        answer: &mut Answer,
    )
        ensures answer { answer.new ≡ (next (state_on (M.memory ram.old) board.old) step.now).answer }
        ensures state { state_on (M.memory ram.new) board.new ≡ (next (state_on (M.memory ram.old) board.old) step.now).state }
        ensures borrow { M.name ram.new ≡ M.name ram.old }
        ensures reach { Reaches (state_on (M.memory ram.old) board.old) step.now answer.new (state_on (M.memory ram.new) board.new) }
        ensures goes { GoesOn self.old (state_on (M.memory ram.old) board.old) step.now number
            self.new (state_on (M.memory ram.new) board.new) }
    {
        self.settling.follow(board, ram, step, number);
        if self.kept.has_no_room() {
            self.history.follow(board, ram, step, number, answer);
        } else {
            let (reason, _seen) = self
                .history
                .step_with_reason(board, ram, step, number, answer);
            self.kept.keep(reason);
        }
    }
}
