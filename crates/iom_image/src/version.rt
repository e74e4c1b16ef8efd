//! Versions of images.

use iom_bits::Features;
use iom_messages::Window;

/// The version of an image, of version 3 and 4 what its machine offers, and of version 4 its window.
#[derive(Clone, Copy)]
pub enum Version {
    /// Version 1: disks have no flags.
    First,
    /// Version 2: disks have flags.
    Second,
    /// Version 3: disks have flags, and the image states what its machine offers: no delays, and interrupts go by wire.
    Third(Features),
    /// Version 4: disks have flags, and the image states what its machine offers, and a window beside memory, if there is one.
    Fourth(Features, Option<Window>),
}
