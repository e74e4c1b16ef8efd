//! The reasons why a device breaks.

use iom_bits::Cause;
use iom_virtq::ChainFault;

/// Why a device broke: the error from which it can't recover, for which it sets DEVICE_NEEDS_RESET (VIRTIO 1.2, "Device Status
/// Field").
#[derive(Clone, Copy)]
pub enum Broken {
    /// The idx of the available ring is more than the queue size ahead of the requests taken ("The Virtqueue Available Ring").
    IndexAhead,
    /// The entry of the available ring is no index of a descriptor: it is at or above the queue size ("The Virtqueue Available
    /// Ring").
    BadHead,
    /// A descriptor can't be the next part of the request's chain, for this reason ("The Virtqueue Descriptor Table").
    Descriptor(ChainFault),
    /// The complete chain has fewer device-readable bytes than the 16 of a header ("Block Device", "Device Operation").
    ShortHeader,
    /// The complete chain has a header, but no device-writable byte for the status ("Block Device", "Device Operation").
    NothingWritable,
    /// An access was denied by the IOMMU, for this cause.
    Denied(Cause),
    /// A byte of an access lies outside memory.
    Outside,
}
