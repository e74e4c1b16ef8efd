//! The phases of a request.

/// The purpose of a device's next access (VIRTIO 1.2, "Split Virtqueues", "Block Device").
#[derive(Clone, Copy)]
pub enum Phase {
    /// Reads the index of the available ring: no request is under way.
    Index,
    /// Reads the entry of the available ring: the head of the request.
    Ring,
    /// Reads the descriptor at this index, below the queue's size.
    Descriptor(u16),
    /// Reads a piece of the header, which has 16 bytes.
    Header,
    /// Moves a piece of the data, after this number of bytes.
    Data(u64),
    /// Writes the status byte.
    Status,
    /// Writes the head into the entry of the used ring.
    UsedId,
    /// Writes the length into that entry.
    UsedLen,
    /// Writes the index of the used ring.
    UsedIdx,
}
