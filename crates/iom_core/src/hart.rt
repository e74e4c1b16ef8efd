//! What a hart does: loads and stores, and accesses to the IOMMU's registers; and the settling of a register.

ghost use Rattle.std.specs.Prelude.{◌≡◌, IsTrue};
ghost use Rattle.iom_regs.specs.Busy.{is_busy_at};
ghost use Rattle.iom_core.specs.Table.{after_settling, is_size, is_aligned, fits, load, overflows, reg_read, reg_write, store};

use crate::iommu::Iommu;
use crate::step::Answer;
use iom_bits::le_u64;
use iom_mem::{Region, WritableRegion};
use iom_regs::Busy;

/// The number of the `size` bytes of memory from physical address `addr` on, the lowest first, as `Value`. `Misuse` if the size is none of
/// 1, 2, 4 and 8 or the address no multiple of it; `BusError` if a byte is outside memory.
#[inline(always)]
#[tactic(auto, unfolding(crate::specs::Table::load))]
pub fn load<M: Region>(ram: &M, addr: u64, size: u64) -> Answer
    ensures { result ≡ load (M.memory ram.now) addr size }
{
    if !is_aligned(addr, size) {
        return Answer::Misuse;
    }
    let mut bytes = [0; 8];
    if ram.read(addr, &mut bytes[..size as usize]) {
        Answer::Value(le_u64(bytes))
    } else {
        Answer::BusError
    }
}

/// Writes the lowest `size` bytes of `value` to memory from physical address `addr` on, and answers `Done`. `Misuse` if the size is none of
/// 1, 2, 4 and 8, the address no multiple of it, or the value too wide for it; `BusError` if a byte is outside memory. Then nothing is
/// changed.
#[inline(always)]
#[tactic(auto, unfolding(crate::specs::Table::store))]
pub fn store<M: WritableRegion>(ram: &mut M, addr: u64, size: u64, value: u64) -> Answer
    ensures answer { result ≡ (store (M.memory ram.old) addr size value).answer }
    ensures left { M.memory ram.new ≡ (store (M.memory ram.old) addr size value).memory }
    ensures borrow { M.name ram.new ≡ M.name ram.old }
{
    if !is_aligned(addr, size) || !fits(value, size) {
        return Answer::Misuse;
    }
    if ram.write(addr, &value.to_le_bytes()[..size as usize]) {
        Answer::Done
    } else {
        Answer::BusError
    }
}

impl Iommu {
    /// The number of the `size` bytes of the IOMMU's registers from offset `off` on, as `Value`; `BadAccess` if the access isn't legal:
    /// `Regs::read` says what is.
    #[tactic(auto, unfolding(crate::specs::Table::reg_read))]
    pub fn reg_read(&self, off: u64, size: u64) -> Answer
        ensures { result ≡ reg_read self.now.registers off size }
    {
        match self.registers.read(off, size) {
            Some(value) => Answer::Value(value),
            None => Answer::BadAccess,
        }
    }

    /// Writes the `size` bytes of `value` to the IOMMU's registers from offset `off` on, and answers `Done`. `Misuse` if the value is too
    /// wide for a size of 1, 2, 4 or 8; `BadAccess` if the access isn't legal: `Regs::read` says what is. Then nothing is changed.
    #[tactic(auto, unfolding(crate::specs::Table::reg_write))]
    pub fn reg_write(&mut self, off: u64, size: u64, value: u64) -> Answer
        ensures answer { result ≡ (reg_write self.old.registers off size value).answer }
        ensures left { self.new
            ≡ record self.old { registers = (reg_write self.old.registers off size value).registers } }
    {
        if overflows(value, size) {
            return Answer::Misuse;
        }
        if self.registers.write(off, size, value) {
            Answer::Done
        } else {
            Answer::BadAccess
        }
    }

    /// Ends the write that keeps a register busy, so that it acts, and returns whether there was one.
    pub fn settle(&mut self, register: Busy) -> bool
        ensures busy { result ≡ is_busy_at self.old.registers register }
        ensures left { self.new ≡ record self.old { registers = after_settling register self.old.registers } }
    {
        self.registers.settle(register)
    }
}

// Whether a size in bytes is one of 1, 2, 4 and 8.
fn is_size(size: u64) -> bool
    ensures { result ≡ is_size size }
{
    matches!(size, 1 | 2 | 4 | 8)
}

// Whether an address is a multiple of a size of 1, 2, 4 or 8. Of a size that is known no division is needed.
#[inline(always)]
fn is_aligned(addr: u64, size: u64) -> bool
    ensures { result ≡ is_aligned addr size }
{
    match size {
        1 => true,
        2 => addr % 2 == 0,
        4 => addr % 4 == 0,
        8 => addr % 8 == 0,
        _ => false,
    }
}

// Whether a number fits into `size` bytes, which are 1, 2, 4 or 8.
fn fits(value: u64, size: u64) -> bool
    requires { IsTrue (is_size size) }
    ensures { result ≡ fits value size }
{
    size == 8 || value >> (8 * size) == 0
}

/// Whether a number is too wide for a register access of this size in bytes, 1, 2, 4 or 8.
pub(crate) fn overflows(value: u64, size: u64) -> bool
    ensures { result ≡ overflows value size }
{
    is_size(size) && !fits(value, size)
}
