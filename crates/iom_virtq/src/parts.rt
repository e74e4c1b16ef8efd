//! One part of a chain, and the reasons to refuse one.

ghost use Rattle.std.specs.Prelude.{◌≡◌, ◌<◌, ◌^◌};
ghost use Rattle.iom_virtq.specs.Chains.{same_side, len_on};

/// Whether a buffer is device-readable or device-writable (VIRTIO 1.2, "The Virtqueue Descriptor Table").
#[derive(Clone, Copy)]
pub enum Side {
    /// The device reads it: VIRTQ_DESC_F_WRITE is 0.
    Readable,
    /// The device writes it: VIRTQ_DESC_F_WRITE is 1.
    Writable,
}

/// The continuation of a chain after a descriptor.
#[derive(Clone, Copy, PartialEq)]
pub enum More {
    /// The descriptor at this index, below the chain's limit.
    Next(u16),
    /// Nothing: the chain is complete.
    Complete,
}

/// Why a descriptor can't be a chain's next part (VIRTIO 1.2, "The Virtqueue Descriptor Table").
#[derive(Clone, Copy, PartialEq)]
pub enum ChainFault {
    /// It is indirect (VIRTQ_DESC_F_INDIRECT), which no device here offers.
    Indirect,
    /// It is device-readable, and an earlier part is device-writable.
    ReadAfterWrite,
    /// The chain has reached its limit of parts already, so it is a loop.
    TooLong,
    /// The index of its next descriptor is at or above the chain's limit.
    BadNext,
    /// Its bytes end above IOVA 2^64.
    Wraps,
}

/// One buffer of a chain: a range of bytes, and whether the device reads or writes them.
#[derive(Clone, Copy)]
pub struct ChainPart {
    /// Whether the device reads it or writes it.
    pub side: Side,
    /// The IOVA of the first byte.
    pub addr: u64,
    /// Its length in bytes, from 0 to 2^32 - 1.
    pub len: u32,
}

impl ChainPart {
    /// Its length in bytes, below 2^32, if it is on this side, else 0.
    pub fn len_on(&self, side: Side) -> u64
        ensures len { result ≡ len_on self.now side }
        ensures fits { result < 2 ^ 32 }
    {
        if is_same(self.side, side) {
            self.len as u64
        } else {
            0
        }
    }
}

// Whether two sides are equal.
fn is_same(side: Side, other: Side) -> bool
    ensures { result ≡ same_side side other }
{
    match side {
        Side::Readable => matches!(other, Side::Readable),
        Side::Writable => matches!(other, Side::Writable),
    }
}
