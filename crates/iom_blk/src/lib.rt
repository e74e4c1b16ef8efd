//! A virtio block device over any bus (VIRTIO 1.2, "Block Device", "Virtio Over MMIO").
#![tactic(auto)]

pub use broken::Broken;
pub use device::Blk;
pub use parts::BlkParts;
pub use phase::Phase;
pub use request::BlockRequest;
pub use want::{Moved, Want};

mod broken;
mod bytes;
mod device;
mod flags;
pub mod offsets;
mod parts;
mod phase;
mod progress;
mod registers;
mod request;
mod taking;
mod want;
