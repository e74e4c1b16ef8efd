//! Memory that its owner lends for a call.

ghost use Rattle.std.specs.Prelude.{◌≡◌, ◌*◌, ◌%◌, IsTrue, length};
ghost use Rattle.iom_mem.specs.Lent.{memory_of, is_lendable};

use crate::region::{Region, WritableRegion};
use crate::{ADDRESS_END, is_paged, placed};

/// Whether memory of this base, a physical address, and this size in bytes may be lent: both are multiples of 4096, the size isn't 0,
/// and the end is 2^56 or below.
pub fn is_lendable(base: u64, size: u64) -> bool
    ensures { result ≡ is_lendable base size }
{
    is_paged(base)
        && is_paged(size)
        && size > 0
        && size <= ADDRESS_END
        && base <= ADDRESS_END - size
}

/// Memory that its owner lends to be read and written, as words of eight bytes, the lowest byte first. It may have any size, and ends
/// at or below 2^56. What is written through it stands in the owner's words.
#[derive(Drop)]
pub struct LentRam<'a> {
    /// The first physical address.
    pub(crate) base: u64,
    /// The words, the first of them at the base.
    pub(crate) words: &'a mut [u64],
    /// The base is the first byte of a page.
    ghost base_paged: { base % 4096 ≡ 0 },
}

impl<'a> LentRam<'a> {
    /// Memory of these words from physical address `base` on; `is_lendable` says which there may be.
    pub fn new(base: u64, words: &'a mut [u64]) -> LentRam<'a>
        requires { IsTrue (is_lendable base (8 * length words.old)) }
        ensures memory { ⟦<LentRam<'a> as Region>⟧.memory result ≡ memory_of base words.old }
        ensures borrow { ⟦<LentRam<'a> as WritableRegion>⟧.name result ≡ words.entry.ghost_name }
    {
        LentRam { base, words }
    }
}

impl Region for LentRam<'_> {
    ghost use Rattle.iom_mem.specs.Lent.{memory_of};

    ghost memory = { λ lent. memory_of lent.base lent.words.now };

    fn base(&self) -> u64 {
        self.base
    }

    fn size(&self) -> u64 {
        placed::size(self.words)
    }

    fn read(&self, addr: u64, out: &mut [u8]) -> bool {
        placed::read(self.base, self.words, addr, out)
    }

    fn word(&self, addr: u64) -> Option<u64> {
        placed::word(self.base, self.words, addr)
    }

    fn words(&self, addr: u64, out: &mut [u64]) -> bool {
        placed::words(self.base, self.words, addr, out)
    }
}

impl WritableRegion for LentRam<'_> {
    ghost name = { λ lent. lent.words.ghost_name };

    fn write(&mut self, addr: u64, bytes: &[u8]) -> bool {
        placed::write(self.base, self.words, addr, bytes)
    }
}

/// Memory that its owner lends to be read, as words of eight bytes, the lowest byte first. It may have any size, and ends at or below
/// 2^56.
#[derive(Clone, Copy)]
pub struct SharedRam<'a> {
    /// The first physical address.
    pub(crate) base: u64,
    /// The words, the first of them at the base.
    pub(crate) words: &'a [u64],
    /// The base is the first byte of a page.
    ghost base_paged: { base % 4096 ≡ 0 },
}

impl<'a> SharedRam<'a> {
    /// Memory of these words from physical address `base` on; `is_lendable` says which there may be.
    pub fn new(base: u64, words: &'a [u64]) -> SharedRam<'a>
        requires { IsTrue (is_lendable base (8 * length words.now)) }
        ensures { ⟦<SharedRam<'a> as Region>⟧.memory result ≡ memory_of base words.now }
    {
        SharedRam { base, words }
    }
}

impl Region for SharedRam<'_> {
    ghost use Rattle.iom_mem.specs.Lent.{memory_of};

    ghost memory = { λ shared. memory_of shared.base shared.words.now };

    fn base(&self) -> u64 {
        self.base
    }

    fn size(&self) -> u64 {
        placed::size(self.words)
    }

    fn read(&self, addr: u64, out: &mut [u8]) -> bool {
        placed::read(self.base, self.words, addr, out)
    }

    fn word(&self, addr: u64) -> Option<u64> {
        placed::word(self.base, self.words, addr)
    }

    fn words(&self, addr: u64, out: &mut [u64]) -> bool {
        placed::words(self.base, self.words, addr, out)
    }
}
