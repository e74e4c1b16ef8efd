//! A chain of descriptors.

ghost use Rattle.std.specs.Prelude.{◌≡◌, ◌+◌, ◌^◌, ◌<◌, ◌≤◌, true};
ghost use Rattle.std.specs.List.{list_all};
ghost use Rattle.iom_bits.specs.Bits.{has_bit};
ghost use Rattle.iom_virtq.specs.Adding.{part_of, more_of};
ghost use Rattle.iom_virtq.specs.Chains.{fits};

use crate::parts::{ChainFault, ChainPart, More, Side};
use crate::pieces::{piece_of, total_of};
use iom_bits::has_bit;
use std::marker::Model;

// The flags of a descriptor, each by its bit.
const NEXT: u32 = 0;

const WRITE: u32 = 1;

const INDIRECT: u32 = 2;

/// The most parts of a chain.
const MOST_PARTS: usize = 64;

/// Fills the places that hold no part.
const NO_PART: ChainPart = ChainPart {
    side: Side::Readable,
    addr: 0,
    len: 0,
};

/// A descriptor chain: the buffers that were added, in their order (VIRTIO 1.2, "The Virtqueue Descriptor Table").
#[derive(Drop)]
pub struct Chain {
    limit: u16,
    parts: [ChainPart; MOST_PARTS],
    count: usize,
}

impl Model for Chain {
    ghost use Rattle.std.specs.Prelude.{◌≡◌, ◌≤◌, take, true};
    ghost use Rattle.std.specs.List.{list_all};
    ghost use Rattle.iom_virtq.specs.Chains.{DescriptorChain, fits};

    ghost Value = { DescriptorChain };

    ghost view = { λ c. record { limit = c.limit; parts = take c.count c.parts } };

    ghost invariant = { λ c. (c.limit ≤ 64) × (c.count ≤ c.limit) × (list_all fits (take c.count c.parts) ≡ true) };
}

impl Chain {
    ghost use Rattle.std.specs.Prelude.{◌*◌, [], ◌∷◌, ◌++◌, length, drop, is_some, IfNone, IfOk, IfSome, OnOk, OnErr};
    ghost use Rattle.std.specs.List.{list_any};
    ghost use Rattle.iom_virtq.specs.Bus.{IsShort};
    ghost use Rattle.iom_virtq.specs.Chains.{bytes_on, address_of, run_length, IsPiece, fits, is_chain};
    ghost use Rattle.iom_virtq.specs.Adding.{add_result, with_part, refusal_of, is_on, IsBelow};

    /// A chain without parts, in a queue of `limit` descriptors, the queue size: 1 to 64.
    pub fn new(limit: u16) -> Chain
        requires some { 1 ≤ limit }
        requires most { limit ≤ 64 }
        ensures { result ≡ record { limit = limit; parts = [] } }
    {
        Chain {
            limit,
            parts: [NO_PART; MOST_PARTS],
            count: 0,
        }
    }

    /// The chain of these parts, as one that was taken apart; None if there is no such chain: `limit`, the queue size, is above 64, there
    /// are more parts than that, or one ends above IOVA 2^64.
    pub fn of(limit: u16, parts: &[ChainPart]) -> Option<Chain>
        ensures legal { is_some result ≡ is_chain limit parts.now }
        ensures chain { IfSome result (λ chain. chain ≡ record { limit = limit; parts = parts.now }) }
    {
        if limit as usize > MOST_PARTS || parts.len() > limit as usize || !all_fit(parts) {
            return None;
        }
        let mut places = [NO_PART; MOST_PARTS];
        places[..parts.len()].copy_from_slice(parts);
        Some(Chain {
            limit,
            parts: places,
            count: parts.len(),
        })
    }

    /// How many descriptors its queue has, at most 64.
    pub fn limit(&self) -> u16
        ensures limit { result ≡ self.now.limit }
        ensures most { result ≤ 64 }
    {
        self.limit
    }

    /// Its parts, in their order, at most as many as its queue has descriptors.
    pub fn parts(&self) -> &[ChainPart]
        ensures parts { result.now ≡ self.now.parts }
        ensures few { length result.now ≤ self.now.limit }
        ensures legal { is_chain self.now.limit self.now.parts ≡ true }
    {
        &self.parts[..self.count]
    }

    /// Adds a descriptor as the chain's last part, and returns what comes next: the index of a further descriptor, below the
    /// chain's limit, or that the chain is complete (VIRTIO 1.2, "The Virtqueue Descriptor Table").
    ///
    /// `addr` is the IOVA of the part's first byte, any of 64 bits, and `len` its length in bytes, from 0 to 2^32 - 1. Of `flags`,
    /// 16 bits, only NEXT (bit 0), WRITE (bit 1) and INDIRECT (bit 2) are used. `next` is an index into the descriptor table, used
    /// only if NEXT is set.
    ///
    /// The refusals, in the order in which they are tested: `Indirect`, `ReadAfterWrite`, `TooLong`, `BadNext`, `Wraps` (`addr +
    /// len` above 2^64). After a refusal the chain is unchanged.
    #[tactic(auto, unfolding(crate::specs::Adding::add_result))]
    pub fn add(&mut self, addr: u64, len: u32, flags: u16, next: u16) -> Result<More, ChainFault>
        ensures result { result ≡ add_result self.old addr len flags next }
        ensures next { IfOk result (IsBelow self.old.limit) }
        ensures added { OnOk result (self.new ≡ with_part self.old addr len flags) }
        ensures unchanged { OnErr result (self.new ≡ self.old) }
    {
        if let Some(fault) = self.refusal(addr, len, flags, next) {
            return Err(fault);
        }
        self.push(part_of(addr, len, flags));
        Ok(more_of(flags, next))
    }

    /// How many bytes the chain has on a side: at most 64 * (2^32 - 1).
    pub fn total(&self, side: Side) -> u64
        ensures total { result ≡ length (bytes_on self.now side) }
        ensures few { result ≤ 64 * 4294967295 }
    {
        total_of(&self.parts[..self.count], side)
    }

    /// The IOVA of the byte at `position` of a side, which is below the side's total, and the length of the piece that begins
    /// there: 1 to 64 bytes of the same part and the same page of 4096 bytes.
    pub fn piece(&self, side: Side, position: u64) -> (u64, u64)
        requires { position < length (bytes_on self.now side) }
        ensures address { result.0 ≡ address_of (drop position (bytes_on self.now side)) }
        ensures count { result.1 ≡ run_length (drop position (bytes_on self.now side)) }
        ensures piece { IsPiece (drop position (bytes_on self.now side)) result.0 result.1 }
        ensures short { IsShort result.0 result.1 }
    {
        piece_of(&self.parts[..self.count], side, position)
    }

    /// A copy of the chain.
    pub fn copy(&self) -> Chain
        ensures { result ≡ self.now }
    {
        Chain {
            limit: self.limit,
            parts: self.parts,
            count: self.count,
        }
    }

    // The first refusal that applies.
    #[tactic(auto, unfolding(crate::specs::Adding::refusal_of))]
    fn refusal(&self, addr: u64, len: u32, flags: u16, next: u16) -> Option<ChainFault>
        ensures refusal { result ≡ refusal_of self.now addr len flags next }
        ensures room { IfNone result (length self.now.parts < self.now.limit) }
        ensures next { IfNone result (IsBelow self.now.limit (more_of flags next)) }
        ensures fits { IfNone result (fits (part_of addr len flags) ≡ true) }
    {
        if has(flags, INDIRECT) {
            Some(ChainFault::Indirect)
        } else if !has(flags, WRITE) && self.has_written() {
            Some(ChainFault::ReadAfterWrite)
        } else if self.count >= self.limit as usize {
            Some(ChainFault::TooLong)
        } else if has(flags, NEXT) && next >= self.limit {
            Some(ChainFault::BadNext)
        } else if addr as u128 + len as u128 > 1 << 64 {
            Some(ChainFault::Wraps)
        } else {
            None
        }
    }

    // Whether a part is device-writable.
    fn has_written(&self) -> bool
        ensures { result ≡ list_any (is_on Side.Writable) self.now.parts }
    {
        self.parts[..self.count]
            .iter()
            .any(|part| matches!(part.side, Side::Writable))
    }

    // Adds a part after the others; there is room for it.
    #[tactic(auto, using(std::proofs::lemmas::List::take_more_set))]
    fn push(&mut self, part: ChainPart)
        requires room { length self.old.parts < self.old.limit }
        requires fits { fits part ≡ true }
        ensures { self.new ≡ record self.old { parts = self.old.parts ++ part ∷ [] } }
    {
        self.parts[self.count] = part;
        self.count += 1;
    }
}

// Whether each part ends at IOVA 2^64 or below.
fn all_fit(parts: &[ChainPart]) -> bool
    ensures { result ≡ list_all fits parts.now }
{
    parts
        .iter()
        .all(|part| part.addr as u128 + part.len as u128 <= 1 << 64)
}

// Whether a flag is set.
fn has(flags: u16, flag: u32) -> bool
    requires { flag < 16 }
    ensures { result ≡ has_bit flags flag }
{
    has_bit(flags as u64, flag)
}

// The part that a descriptor describes.
fn part_of(addr: u64, len: u32, flags: u16) -> ChainPart
    ensures { result ≡ part_of addr len flags }
{
    let side = if has(flags, WRITE) {
        Side::Writable
    } else {
        Side::Readable
    };
    ChainPart { side, addr, len }
}

// The continuation of a chain after a descriptor.
fn more_of(flags: u16, next: u16) -> More
    ensures { result ≡ more_of flags next }
{
    if has(flags, NEXT) {
        More::Next(next)
    } else {
        More::Complete
    }
}
