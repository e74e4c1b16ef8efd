//! Physical memory: one region of bytes.
#![tactic(auto)]

ghost use Rattle.std.specs.Prelude.{◌≡◌, ◌+◌, ◌*◌, ◌/◌, ◌&&◌, ◌≤◌, ◌<◌, ◌⊎◌, length, take, drop, Some, None, IfOk, IfErr, IfSome, IfNone};
ghost use Rattle.std.specs.Bool.{OnTrue, OnFalse};
ghost use Rattle.std.specs.Option.{is_some};
ghost use Rattle.iom_mem.specs.Sizes.{covers, is_good_size, is_paged};

pub use lent::{LentRam, SharedRam, is_lendable};
pub use region::{Region, WritableRegion, words_at};
use std::alloc::{AllocError, Global};
use std::marker::Model;
use thiserror::Error;
use word_bytes::all_words;

mod lent;
mod placed;
mod region;
mod word_bytes;

/// Why there is no memory of the base and size that were asked for.
#[derive(Clone, Copy, Debug, PartialEq, Error)]
pub enum MemFault {
    /// The base, a physical address, is no multiple of 4096. It is tested first.
    #[error("the base of memory is not a multiple of 4096")]
    BadBase,
    /// The size is 0, no multiple of 4096 or above 64 MiB, or the end is above 2^56.
    #[error("the size of memory is not a multiple of 4096 up to 64 MiB, or its end is above 2^56")]
    BadSize,
    /// An allocation was refused. The base and the size are good.
    #[error("out of memory")]
    OutOfMemory,
}

/// The most bytes that a memory has: 64 MiB.
const MOST_BYTES: u64 = 1 << 26;

/// Physical addresses have 56 bits.
const ADDRESS_END: u64 = 1 << 56;

// Whether a number is one of whole pages.
fn is_paged(number: u64) -> bool
    ensures { result ≡ is_paged number }
{
    number % 4096 == 0
}

// Whether a memory from this base on may have this size.
fn is_good_size(base: u64, size: u64) -> bool
    ensures { result ≡ is_good_size base size }
{
    size != 0 && is_paged(size) && size <= MOST_BYTES && base <= ADDRESS_END - size
}

/// Whether there may be a memory of this base, a physical address, and this size in bytes: both are multiples of 4096, the size is
/// 4096 to 2^26, and the end is 2^56 or below.
pub fn is_ram(base: u64, size: u64) -> bool
    ensures { result ≡ (is_paged base && is_good_size base size) }
{
    is_paged(base) && is_good_size(base, size)
}

/// Whether the `len` bytes from address `addr` on are among those from `base` to `end`, which isn't one of them. No bytes are among
/// them from `base` to `end` itself.
pub fn covers(base: u64, end: u64, addr: u64, len: u64) -> bool
    ensures { result ≡ covers base end addr len }
{
    base <= addr && addr <= end && len <= end - addr
}

/// One region of memory, of 4096 bytes to 64 MiB, below 2^56. Its addresses are physical, in bytes; what isn't in it is called
/// outside.
#[derive(Drop)]
pub struct Ram {
    base: u64,
    words: Vec<u64>,
}

impl Model for Ram {
    ghost use Rattle.iom_mem.specs.Memory.{Memory};
    ghost use Rattle.iom_mem.specs.Sizes.{IsLegal};

    ghost Value = { Memory };

    ghost use Rattle.iom_mem.specs.Words.{bytes_of_words};

    ghost view = { λ r. record { base = r.base; bytes = bytes_of_words r.words.items } };

    ghost invariant = { λ r. IsLegal (record { base = r.base; bytes = bytes_of_words r.words.items }) };
}

impl Ram {
    ghost use Rattle.iom_mem.specs.Memory.{size_of, bytes_at, word, words_at, put, ReplacesBytes};
    ghost use Rattle.iom_mem.specs.Sizes.{IsLegal, refusal_of, zeroed};
    ghost use Rattle.iom_mem.specs.Lent.{memory_of};
    ghost use Rattle.iom_mem.specs.Words.{bytes_of_words};

    /// Memory of `size` bytes, all 0, from physical address `base` on.
    ///
    /// `base` is a multiple of 4096, else `BadBase`. `size` is a multiple of 4096 from 4096 to
    /// 64 MiB, and `base + size` is at most 2^56, else `BadSize`. `OutOfMemory` comes last.
    #[tactic(auto, using(crate::proofs::WordBytes::zeros_hold))]
    pub fn new(alloc: Global, base: u64, size: u64) -> Result<Ram, MemFault>
        ensures refused { IfSome (refusal_of base size) (λ fault. result ≡ Err fault) }
        ensures made { IfOk result (λ ram. ram ≡ zeroed base size) }
        ensures accepted { IfNone (refusal_of base size)
            (IfErr result (λ fault. fault ≡ MemFault.OutOfMemory)) }
    {
        if !is_paged(base) {
            return Err(MemFault::BadBase);
        }
        if !is_good_size(base, size) {
            return Err(MemFault::BadSize);
        }
        // One allocation and one fill of it; `vec!` would write it word by word.
        let mut words = Vec::new(alloc);
        words
            .resize(size as usize / 8, 0)
            .map_err(|_| MemFault::OutOfMemory)?;
        Ok(Ram { base, words })
    }

    /// Memory of these words, the first of them at physical address `base`. It is refused as by `new`, by a size of eight bytes a word.
    #[tactic(auto, using(crate::proofs::WordBytes::words_hold))]
    pub fn of_words(alloc: Global, base: u64, words: &[u64]) -> Result<Ram, MemFault>
        ensures refused { IfSome (refusal_of base (8 * length words.now)) (λ fault. result ≡ Err fault) }
        ensures made { IfOk result (λ ram. ram ≡ memory_of base words.now) }
        ensures accepted { IfNone (refusal_of base (8 * length words.now))
            (IfErr result (λ fault. fault ≡ MemFault.OutOfMemory)) }
    {
        if !is_paged(base) {
            return Err(MemFault::BadBase);
        }
        if !is_good_size(base, 8 * words.len() as u64) {
            return Err(MemFault::BadSize);
        }
        let words = Vec::from_slice(alloc, words).map_err(|_| MemFault::OutOfMemory)?;
        Ok(Ram { base, words })
    }

    /// A memory with the same base and the same bytes. The fault is want of memory for the copy.
    pub fn try_clone(&self, alloc: Global) -> Result<Ram, AllocError>
        ensures { IfOk result (λ ram. ram ≡ self.now) }
    {
        Ok(Ram {
            base: self.base,
            words: Vec::from_slice(alloc, &self.words)?,
        })
    }

    /// The first physical address: a multiple of 4096.
    pub fn base(&self) -> u64
        ensures value { result ≡ self.now.base }
        ensures legal { IsLegal self.now }
    {
        self.base
    }

    /// How many bytes there are: a multiple of 4096 from 4096 to 2^26. `base + size` is at most 2^56.
    pub fn size(&self) -> u64
        ensures value { result ≡ size_of self.now }
        ensures legal { IsLegal self.now }
    {
        placed::size(&self.words)
    }

    /// Reads the bytes from physical address `addr` on into `out`, and answers true; false if one of them is outside, and then `out` is
    /// unchanged. An empty `out` is read anywhere, outside memory too.
    pub fn read(&self, addr: u64, out: &mut [u8]) -> bool
        ensures read { OnTrue result (bytes_at self.now addr (length out.old) ≡ Some out.new) }
        ensures outside { OnFalse result (bytes_at self.now addr (length out.old) ≡ None) }
        ensures unchanged { OnFalse result (out.new ≡ out.old) }
    {
        placed::read(self.base, &self.words, addr, out)
    }

    /// Writes `bytes` from physical address `addr` on, and answers true; false if one of the places is outside, and then nothing is
    /// changed. Empty `bytes` are written anywhere, outside memory too.
    #[tactic(auto, using(crate::proofs::WordBytes::words_hold))]
    pub fn write(&mut self, addr: u64, bytes: &[u8]) -> bool
        ensures inside { result ≡ is_some (bytes_at self.old addr (length bytes.now)) }
        ensures written { OnTrue result (self.new ≡ put self.old addr bytes.now) }
        ensures replaces { OnTrue result (ReplacesBytes self.old addr bytes.now self.new) }
        ensures unchanged { OnFalse result (self.new ≡ self.old) }
    {
        placed::write(self.base, &mut self.words, addr, bytes)
    }

    /// The number of the eight bytes from physical address `addr` on, the lowest byte first; None if one of them is outside. `addr` may be
    /// any address.
    pub fn word(&self, addr: u64) -> Option<u64>
        ensures { result ≡ word self.now addr }
    {
        placed::word(self.base, &self.words, addr)
    }

    /// Reads the words from physical address `addr` on into `out`, word i from `addr + 8 * i`, and answers true; false if a byte of one is
    /// outside, and then `out` is unchanged. `addr` may be any address, and an empty `out` is read anywhere, outside memory too.
    pub fn words(&self, addr: u64, out: &mut [u64]) -> bool
        ensures read { OnTrue result (words_at self.now addr (length out.old) ≡ Some out.new) }
        ensures outside { OnFalse result (words_at self.now addr (length out.old) ≡ None) }
        ensures unchanged { OnFalse result (out.new ≡ out.old) }
    {
        placed::words(self.base, &self.words, addr, out)
    }

    /// The `N` words from physical address `addr` on, of any alignment, word i from `addr + 8 * i`; None if a byte of one is outside.
    pub fn words_at<const N: usize>(&self, addr: u64) -> Option<[u64; N]>
        ensures { result ≡ words_at self.now addr N }
    {
        words_at(self, addr)
    }

    /// All of memory as words: word i is the one at physical address `base + 8 * i`.
    pub fn as_words(&self) -> &[u64]
        ensures read { words_at self.now self.now.base (size_of self.now / 8) ≡ Some result.now }
        ensures bytes { bytes_of_words result.now ≡ self.now.bytes }
    {
        all_words(&self.words)
    }
}

impl Region for Ram {
    ghost memory = { λ ram. ram };

    fn base(&self) -> u64 {
        Ram::base(self)
    }

    fn size(&self) -> u64 {
        Ram::size(self)
    }

    fn read(&self, addr: u64, out: &mut [u8]) -> bool {
        Ram::read(self, addr, out)
    }

    fn word(&self, addr: u64) -> Option<u64> {
        Ram::word(self, addr)
    }

    fn words(&self, addr: u64, out: &mut [u64]) -> bool {
        Ram::words(self, addr, out)
    }
}

impl WritableRegion for Ram {
    ghost name = { λ ram. 0 };

    fn write(&mut self, addr: u64, bytes: &[u8]) -> bool {
        Ram::write(self, addr, bytes)
    }
}
