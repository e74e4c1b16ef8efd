//! The interrupts by message that a step raises (RISC-V IOMMU Architecture 1.0, "Interrupt pending status register (ipsr)").

ghost use Rattle.std.specs.Prelude.{◌≡◌};
ghost use Rattle.iom_mem.specs.Memory.{Memory};
ghost use Rattle.iom_core.specs.State.{in_front_of, state_on};
ghost use Rattle.iom_core.specs.Table.{noted, noted_write, with_signals};

use crate::board::Board;
use crate::hart::overflows;
use crate::step::Step;
use iom_mem::WritableRegion;
use iom_regs::Regs;
use iom_signals::{Noted, signal};

impl Board {
    // What is noted before a step, so that its interrupts can be told after it.
    #[inline(always)]
    #[tactic(auto, unfolding(crate::specs::Table::noted))]
    pub(crate) fn noted(&self, step: &Step) -> Noted
        ensures { (memory : Memory) → result ≡ noted (state_on memory self.now) step.now }
    {
        match step {
            Step::RegWrite { off, size, value } => noted_write(
                &self.iommu.registers,
                *off,
                *size,
                *value,
            ),
            _ => Noted {
                freed: None,
                before: self.iommu.registers.pending(),
            },
        }
    }

    // Signals the interrupts that a step raised.
    #[inline(always)]
    #[tactic(auto, unfolding(crate::specs::Table::with_signals))]
    pub(crate) fn interrupt<M: WritableRegion>(&mut self, ram: &mut M, noted: Noted)
        ensures state { state_on (M.memory ram.new) self.new ≡ with_signals noted (state_on (M.memory ram.old) self.old) }
        ensures borrow { M.name ram.new ≡ M.name ram.old }
    {
        signal(&mut self.iommu.registers, ram, &mut self.messages, noted);
    }
}

// What is noted before a write of a register.
#[tactic(auto, unfolding(crate::specs::Table::noted_write), using(iom_regs::proofs::Refused::frees_nothing, iom_regs::proofs::Refused::clears_nothing))]
fn noted_write(registers: &Regs, off: u64, size: u64, value: u64) -> Noted
    ensures { result ≡ noted_write registers.now off size value }
{
    if overflows(value, size) {
        return Noted {
            freed: None,
            before: registers.pending(),
        };
    }
    Noted {
        freed: registers.freed(off, size, value),
        before: registers.pending_left(off, size, value),
    }
}
