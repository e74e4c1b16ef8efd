//! Refusals.

ghost use Rattle.std.specs.Prelude.{◌≡◌};
ghost use Rattle.iom_image.specs.declared.fault.LoadFault.TheVariants as load;

use std::alloc::{AllocError, AllocFailed};
use thiserror::Error;

/// Why bytes are refused as an image: the first check that fails, from the first byte on, each field judged once it is whole.
#[derive(Clone, Copy, Debug, PartialEq, Error)]
pub enum LoadFault {
    /// The first eight bytes are none of `RVIOMMU1`, `RVIOMMU2`, `RVIOMMU3` and `RVIOMMU4`.
    #[error("bad magic")]
    BadMagic,
    /// The bytes end within the image.
    #[error("truncated")]
    Truncated,
    /// Bytes follow the image.
    #[error("trailing bytes")]
    Trailing,
    /// There is no memory of this base and size.
    #[error("bad memory")]
    BadRam,
    /// There is no window of this base and size, or a byte of it is memory.
    #[error("bad window")]
    BadWindow,
    /// A chunk lies below the end of the one before, has no bytes, or has one outside memory.
    #[error("bad chunk")]
    BadChunk,
    /// There are more than eight disks, an id is met twice or above 24 bits, a disk has no sector or more than 65,536, flags other
    /// than bit 0, or less room than bytes.
    #[error("bad device")]
    BadDevice,
    /// The word of version 3 has another bit than those of its features, or both bits of vectors. The first word of version 4 isn't register
    /// capabilities of a machine here, or its second one has another bit than those of its features, or both bits of vectors.
    #[error("bad capabilities")]
    BadCapabilities,
    /// An allocation was refused. The image would be accepted.
    #[error("out of memory")]
    OutOfMemory,
}

impl From<AllocError> for LoadFault {
    ghost from_gives = { λ _ e. e ≡ load.OutOfMemory };

    fn from(_error: AllocError) -> LoadFault {
        LoadFault::OutOfMemory
    }
}

impl<T: Drop> From<AllocFailed<T>> for LoadFault {
    ghost from_gives = { λ _ e. e ≡ load.OutOfMemory };

    fn from(_error: AllocFailed<T>) -> LoadFault {
        LoadFault::OutOfMemory
    }
}
