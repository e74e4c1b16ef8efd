//! Refusals of the assembler.

ghost use Rattle.std.specs.Prelude.{◌≡◌};
ghost use Rattle.iom_asm.specs.declared.asm_fault.AsmFault.TheVariants as asm;

use std::alloc::{AllocError, AllocFailed};
use thiserror::Error;

/// Why a text is refused: the first line with a fault, the first line being 1. In one line `BadLine` comes before `Outside`, and
/// `Outside` before `Overlap`.
#[derive(Clone, Copy, Debug, PartialEq, Error)]
pub enum AsmFault {
    /// The line is no statement that may stand there; line 0: there is no statement.
    #[error("line {0}: bad line")]
    BadLine(u64),
    /// A byte of the line has the place of one of an earlier line.
    #[error("line {0}: overlap")]
    Overlap(u64),
    /// A byte of the line is outside memory.
    #[error("line {0}: outside memory")]
    Outside(u64),
    /// An allocation was refused.
    #[error("out of memory")]
    OutOfMemory,
}

impl From<AllocError> for AsmFault {
    ghost from_gives = { λ _ e. e ≡ asm.OutOfMemory };

    fn from(_error: AllocError) -> AsmFault {
        AsmFault::OutOfMemory
    }
}

impl<T: Drop> From<AllocFailed<T>> for AsmFault {
    ghost from_gives = { λ _ e. e ≡ asm.OutOfMemory };

    fn from(_error: AllocFailed<T>) -> AsmFault {
        AsmFault::OutOfMemory
    }
}
