//! The answers of a bus.

use iom_bits::Cause;

/// The answer of a bus to an access of a device.
#[derive(Clone, Copy)]
pub enum Access {
    /// All bytes were read, or written.
    Ok,
    /// The access isn't allowed; nothing was read or written.
    Denied(Cause),
    /// It is allowed, and a byte of it lies outside memory; nothing was read or written.
    Outside,
}
