//! The access that a device asks for, and the outcome of its step.

ghost use Rattle.std.specs.Prelude.{◌≡◌, ◌≤◌, length, Some};
ghost use Rattle.iom_virtq.specs.Bus.{Write};
ghost use Rattle.iom_blk.specs.Wants.{wanted};

use arrayvec::ArrayVec;
use iom_bits::Cause;

/// The access that a device asks the bus for, within one page of 4096 bytes. Addresses are IOVAs, in bytes.
#[derive(Drop)]
pub enum Want {
    /// Nothing: its step is idle.
    Nothing,
    /// A read of `len` bytes, 1 to 64, from this IOVA on.
    Read { iova: u64, len: u64 },
    /// A write of these 1 to 64 bytes from this IOVA on.
    Write { iova: u64, bytes: ArrayVec<u8, 64> },
}

impl Want {
    /// A write of these 1 to 64 bytes from this IOVA on.
    pub(crate) fn write(iova: u64, bytes: &[u8]) -> Want
        requires { length bytes.now ≤ 64 }
        ensures { wanted result ≡ Some (Write iova bytes.now) }
    {
        let mut all = ArrayVec::new();
        let _fits = all.try_extend_from_slice(bytes);
        Want::Write { iova, bytes: all }
    }
}

/// The outcome of a step of a device.
#[derive(Clone, Copy, PartialEq)]
pub enum Moved {
    /// The device had nothing to do.
    Idle,
    /// Its access was granted, even if the device then broke.
    Did,
    /// Its access was denied by the IOMMU, for this cause.
    Denied(Cause),
    /// A byte of its access lies outside memory.
    Outside,
}
