ghost use Rattle.std.specs.Prelude.{◌≡◌, ◌+◌, ◌*◌, ◌^◌, ◌<◌, ◌/◌, ◌%◌, false};
ghost use Rattle.std.specs.Int.{bit_at};
ghost use Rattle.iom_bits.specs.Bits.{field_of};
ghost use Rattle.iom_regs.specs.Busy.{control_settled};
ghost use Rattle.iom_regs.specs.Sound.{named_bits};
ghost use Rattle.iom_regs.specs.Table.{flag_after, turns_on, cqcsr_of, fqcsr_of, is_busy, on_after, pending_after};

use crate::layout::{BUSY, ON};
use iom_bits::field;

// Bit `bit` of a word, left at its place.
#[tactic(auto, using(crate::proofs::Shifts::bit_placed))]
fn bit_in_place(word: u64, bit: u32) -> u64
    requires { bit < 64 }
    ensures { result ≡ 2 ^ bit * bit_at word bit }
{
    field(word, bit, 1) << bit
}

// Flag `bit` of a register after a write, at its place: a written 1 clears it.
fn flag_after(old: u64, value: u64, bit: u32) -> u64
    requires { bit < 64 }
    ensures { result ≡ flag_after old value bit }
{
    if field(value, bit, 1) == 1 {
        0
    } else {
        bit_in_place(old, bit)
    }
}

/// Whether writing `value` to cqcsr or fqcsr turns the queue on: bit 0 (cqen, fqen) is 1 in `value` and 0 in `control`.
pub fn turns_on(control: u64, value: u64) -> bool
    ensures { result ≡ turns_on control value }
{
    field(value, 0, 1) == 1 && field(control, 0, 1) == 0
}

// Bits 16 (cqon, fqon) and 17 (busy) of cqcsr or fqcsr after a write: without delays the queue is on if it is enabled, with delays it
// stays on or off, and is busy.
fn on_after(delays: bool, old: u64, value: u64) -> u64
    ensures { result ≡ on_after delays old value }
{
    if delays {
        bit_in_place(old, ON) + (1 << BUSY)
    } else {
        field(value, 0, 1) << ON
    }
}

/// cqcsr, the command queue's control and status, after a write of `value` over `old`, which isn't busy: bits 0 and 1 are taken over, a 1
/// clears each of the bits 8 to 11, and turning the queue on clears them all. Without delays cqon (bit 16) is as cqen (bit 0); with
/// delays it is as it was, and busy (bit 17) is set ("Command-queue CSR (cqcsr)").
#[tactic(auto, unfolding(iom_bits::specs::Bits::has_bit))]
pub fn cqcsr_after_write(delays: bool, old: u64, value: u64) -> u64
    ensures value { result ≡ cqcsr_of delays old value }
    ensures named { named_bits result 4 ≡ result }
    ensures busy { is_busy result ≡ delays }
    ensures on { is_busy result ≡ false → bit_at result 16 ≡ bit_at result 0 }
    ensures cmd_to { bit_at old 9 ≡ 0 → bit_at result 9 ≡ 0 }
{
    let low = if turns_on(old, value) {
        field(value, 0, 2)
    } else {
        field(value, 0, 2)
            + (flag_after(old, value, 8)
                + flag_after(old, value, 9)
                + flag_after(old, value, 10)
                + flag_after(old, value, 11))
    };
    low + on_after(delays, old, value)
}

/// fqcsr, the fault queue's control and status, after a write of `value` over `old`, which isn't busy: bits 0 and 1 are taken over, a 1
/// clears each of the bits 8 and 9, and turning the queue on clears both. Without delays fqon (bit 16) is as fqen (bit 0); with delays
/// it is as it was, and busy (bit 17) is set ("Fault queue CSR (fqcsr)").
#[tactic(auto, unfolding(iom_bits::specs::Bits::has_bit))]
pub fn fqcsr_after_write(delays: bool, old: u64, value: u64) -> u64
    ensures value { result ≡ fqcsr_of delays old value }
    ensures named { named_bits result 2 ≡ result }
    ensures busy { is_busy result ≡ delays }
    ensures on { is_busy result ≡ false → bit_at result 16 ≡ bit_at result 0 }
{
    let low = if turns_on(old, value) {
        field(value, 0, 2)
    } else {
        field(value, 0, 2) + (flag_after(old, value, 8) + flag_after(old, value, 9))
    };
    low + on_after(delays, old, value)
}

/// cqcsr or fqcsr after the write that kept it busy is carried out: on (bit 16) is as enabled (bit 0), and busy (bit 17) is 0.
#[tactic(auto, unfolding(iom_bits::specs::Bits::has_bit))]
pub fn control_settled(control: u64) -> u64
    ensures value { result ≡ control_settled control }
    ensures busy { is_busy result ≡ false }
    ensures on { bit_at result 16 ≡ bit_at result 0 }
    ensures commands { named_bits control 4 ≡ control → named_bits result 4 ≡ result }
    ensures faults { named_bits control 2 ≡ control → named_bits result 2 ≡ result }
    ensures interrupt { bit_at result 1 ≡ bit_at control 1 }
    ensures second { bit_at result 9 ≡ bit_at control 9 }
    ensures two { field_of result 8 2 ≡ field_of control 8 2 }
    ensures four { field_of result 8 4 ≡ field_of control 8 4 }
{
    field(control, 0, ON) + (field(control, 0, 1) << ON)
}

/// ipsr after a write of `value`: a 1 clears each of the bits 0 (cip) and 1 (fip).
pub fn ipsr_after_write(old: u64, value: u64) -> u64
    ensures { result ≡ flag_after old value 0 + flag_after old value 1 }
{
    flag_after(old, value, 0) + flag_after(old, value, 1)
}

/// Bit `bit` of ipsr, 0 (cip) or 1 (fip), at its place: set if its cause asks for it, else as it was.
pub fn pending_after(ipsr: u64, bit: u32, asked: bool) -> u64
    requires { bit < 2 }
    ensures { result ≡ pending_after ipsr bit asked }
{
    if asked {
        1 << bit
    } else {
        bit_in_place(ipsr, bit)
    }
}

/// A register with its low 32 bits replaced by `value`, which is below 2^32.
pub fn with_low(word: u64, value: u64) -> u64
    requires { value < 2 ^ 32 }
    ensures { result ≡ value + 2 ^ 32 * (word / 2 ^ 32) }
{
    value + (field(word, 32, 32) << 32)
}

/// A register with its high 32 bits replaced by `value`, which is below 2^32.
pub fn with_high(word: u64, value: u64) -> u64
    requires { value < 2 ^ 32 }
    ensures { result ≡ word % 2 ^ 32 + 2 ^ 32 * value }
{
    field(word, 0, 32) + (value << 32)
}
