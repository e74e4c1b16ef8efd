//! Writes that the IOMMU ignores since a register is busy.

ghost use Rattle.std.specs.Prelude.{◌≡◌};
ghost use Rattle.iom_debug.specs.Ignored.{is_carried_out, is_held, writes_held};

use iom_bits::has_bit;
use iom_core::{Answer, Platform, Step};
use iom_regs::Regs;

// Whether a register at this offset, in bytes, takes no write now, since ddtp, cqcsr or fqcsr is busy.
fn is_held(registers: &Regs, off: u64) -> bool
    ensures { result ≡ is_held registers.now off }
{
    let values = registers.values();
    match off {
        16 | 20 => has_bit(values.ddtp, 4),
        24 | 28 | 72 => has_bit(values.cqcsr, 17),
        40 | 44 | 76 => has_bit(values.fqcsr, 17),
        _ => false,
    }
}

/// Whether a step writes a register that takes no write now, since a register is busy ("Device-directory-table pointer (ddtp)",
/// "Command-queue CSR (cqcsr)", "Fault queue CSR (fqcsr)": busy).
pub fn writes_held(platform: &Platform, step: &Step) -> bool
    ensures { result ≡ writes_held platform.now step.now }
{
    match step {
        Step::RegWrite { off, .. } => is_held(platform.registers(), *off),
        _ => false,
    }
}

/// Whether a step was carried out.
pub fn is_carried_out(answer: &Answer) -> bool
    ensures { result ≡ is_carried_out answer.now }
{
    matches!(answer, Answer::Done)
}
