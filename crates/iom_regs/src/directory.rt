ghost use Rattle.std.specs.Prelude.{◌≡◌, ◌+◌, ◌*◌, ◌^◌, ◌≤◌, false, true};
ghost use Rattle.std.specs.Int.{bit_at};
ghost use Rattle.iom_bits.specs.Bits.{field_of};
ghost use Rattle.iom_regs.specs.Table.{ddtp_after, ddtp_of, is_ddtp_busy, is_mode};

use crate::layout::DDTP_BUSY;
use iom_bits::field;

// The highest iommu_mode that ddtp takes: a device directory of three levels.
const HIGHEST_MODE: u64 = 4;

/// Whether ddtp takes the mode, bits 3:0, of a written value ("Device-directory-table pointer (ddtp)").
pub fn is_mode(value: u64) -> bool
    ensures { result ≡ is_mode value }
{
    field(value, 0, 4) <= HIGHEST_MODE
}

/// The mode, bits 3:0, and the PPN, bits 53:10, of a value of ddtp: the value without its reserved bits and without busy.
#[tactic(auto, unfolding(iom_bits::specs::Bits::has_bit))]
pub fn pointer(value: u64) -> u64
    ensures value { result ≡ ddtp_of value }
    ensures mode { field_of result 0 4 ≡ field_of value 0 4 }
    ensures whole { ddtp_of result ≡ result }
    ensures busy { bit_at result 4 ≡ 0 }
    ensures idle { is_ddtp_busy result ≡ false }
{
    field(value, 0, 4) + (field(value, 10, 44) << 10)
}

/// ddtp after a write that isn't carried out yet, over a value that isn't busy: a mode above 4 isn't taken.
#[tactic(auto, unfolding(iom_bits::specs::Bits::has_bit))]
pub fn pointer_after(old: u64, value: u64) -> u64
    ensures value { result ≡ ddtp_after old value }
    ensures mode { field_of old 0 4 ≤ 4 → field_of result 0 4 ≤ 4 }
    ensures whole { is_ddtp_busy old ≡ false → ddtp_of old + 2 ^ 4 * bit_at old 4 ≡ old → ddtp_of result ≡ result }
    ensures clear { is_ddtp_busy old ≡ false → bit_at result 4 ≡ 0 }
{
    if is_mode(value) { pointer(value) } else { old }
}

/// ddtp made busy.
pub fn busy_pointer(pointer: u64) -> u64
    requires { ddtp_of pointer ≡ pointer }
    ensures value { result ≡ pointer + 2 ^ 4 }
    ensures mode { field_of result 0 4 ≡ field_of pointer 0 4 }
    ensures whole { ddtp_of result + 2 ^ 4 * bit_at result 4 ≡ result }
{
    pointer + (1 << DDTP_BUSY)
}
