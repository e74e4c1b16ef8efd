ghost use Rattle.std.specs.Prelude.{◌≡◌, ◌+◌, ◌*◌, ◌%◌, ◌^◌, ◌<◌, ◌≤◌, ◌/◌};
ghost use Rattle.iom_bits.specs.Bits.{with_bit};
ghost use Rattle.iom_regs.specs.Table.{entries_of, is_busy, is_off, is_on};

use crate::flags::{with_high, with_low};
use crate::layout::{BUSY, ON};
use iom_bits::{field, has_bit, with_field};

/// The registers of one queue, as they are read: those of the command queue (CQ) or of the fault queue (FQ).
#[derive(Clone, Copy)]
pub struct Ring {
    /// cqb or fqb: in bits 4:0 LOG2SZ-1, in bits 53:10 the PPN of its first byte, a physical address divided by 4096.
    pub base: u64,
    /// cqh or fqh: the index of the first entry, below the number of entries.
    pub head: u64,
    /// cqt or fqt: the index after the last entry, below the number of entries.
    pub tail: u64,
    /// cqcsr or fqcsr, 32 bits.
    pub control: u64,
}

/// How many entries a queue of this base has: 2^(LOG2SZ-1 + 1), from 2 to 2^32.
#[tactic(auto, using(crate::proofs::Shifts::entries_shifted))]
pub fn entries(base: u64) -> u64
    ensures value { result ≡ entries_of base }
    ensures some { 0 < result }
    ensures most { result ≤ 2 ^ 32 }
{
    2 << field(base, 0, 5)
}

impl Ring {
    ghost use Rattle.iom_regs.specs.Rings.{with_base};

    /// The registers of a queue at reset: all are 0, and the queue is off.
    pub fn reset() -> Self
        ensures { result ≡ record { base = 0; head = 0; tail = 0; control = 0 } }
    {
        Ring {
            base: 0,
            head: 0,
            tail: 0,
            control: 0,
        }
    }

    /// Whether the queue is on: cqon or fqon, bit 16 of its control and status.
    pub fn is_on(&self) -> bool
        ensures { result ≡ is_on self.now.control }
    {
        field(self.control, ON, 1) == 1
    }

    /// Whether it is neither enabled nor on nor busy.
    pub fn is_off(&self) -> bool
        ensures { result ≡ is_off self.now.control }
    {
        !has_bit(self.control, 0) && !self.is_on() && !self.is_busy()
    }

    /// Whether its control and status is busy, by bit 17 of it: a write of it isn't carried out yet.
    pub fn is_busy(&self) -> bool
        ensures { result ≡ is_busy self.now.control }
    {
        has_bit(self.control, BUSY)
    }

    /// Writes cqb or fqb. A queue that is on or busy keeps its base; else the reserved bits stay 0, and head and tail are taken modulo
    /// the new number of entries.
    pub fn set_base(&mut self, value: u64)
        ensures { self.new ≡ with_base value self.old }
    {
        if !self.is_on() && !self.is_busy() {
            let entries = entries(value);
            self.base = field(value, 0, 5) + (field(value, 10, 44) << 10);
            self.head %= entries;
            self.tail %= entries;
        }
    }

    /// Writes the low 32 bits of the base, below 2^32, by the rule of `set_base`.
    pub fn set_base_low(&mut self, value: u64)
        requires { value < 2 ^ 32 }
        ensures { self.new
            ≡ with_base (value + 2 ^ 32 * (self.old.base / 2 ^ 32)) self.old }
    {
        let base = with_low(self.base, value);
        self.set_base(base);
    }

    /// Writes the high 32 bits of the base, below 2^32, by the rule of `set_base`.
    pub fn set_base_high(&mut self, value: u64)
        requires { value < 2 ^ 32 }
        ensures { self.new
            ≡ with_base (self.old.base % 2 ^ 32 + 2 ^ 32 * value) self.old }
    {
        let base = with_high(self.base, value);
        self.set_base(base);
    }

    /// Writes cqh or fqh: the number modulo the number of entries.
    pub fn set_head(&mut self, value: u64)
        ensures { self.new ≡ record self.old { head = value % entries_of self.old.base } }
    {
        self.head = value % entries(self.base);
    }

    /// Writes cqt or fqt: the number modulo the number of entries.
    pub fn set_tail(&mut self, value: u64)
        ensures { self.new ≡ record self.old { tail = value % entries_of self.old.base } }
    {
        self.tail = value % entries(self.base);
    }

    /// Sets bit `bit`, below 64, of the queue's control and status.
    pub fn raise(&mut self, bit: u32)
        requires { bit < 64 }
        ensures { self.new ≡ record self.old { control = with_bit self.old.control bit } }
    {
        self.control = with_field(self.control, bit, 1, 1);
    }
}
