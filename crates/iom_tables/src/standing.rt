use iom_bits::Cause;
use iom_ddt::Context;

/// A place of a cache, compared with the tables in memory.
#[derive(Clone, Copy)]
pub enum Standing<T> {
    /// It is beyond the last place.
    Beyond,
    /// What stood there was dropped.
    Empty,
    /// It is live, and holds what the tables say now.
    Current,
    /// It is live, and holds what the tables don't say; this is what they say now.
    Stale(T),
}

/// What ddtp and the directory say of a device id.
#[derive(Clone, Copy)]
pub enum Located {
    /// ddtp's mode is Off or Bare, which have no directory.
    NoDirectory,
    /// The device's context.
    Context(Context),
    /// Why there is none ("Process to locate the Device-context").
    Fault(Cause),
}
