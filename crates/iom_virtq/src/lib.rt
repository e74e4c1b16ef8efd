//! The base of a device with a split queue (VIRTIO 1.2, "Split Virtqueues"): the bus by which it reads and writes, and chains of
//! descriptors.
#![tactic(auto)]

pub use access::Access;
pub use bus::Bus;
pub use chain::Chain;
pub use parts::{ChainFault, ChainPart, More, Side};

mod access;
mod bus;
mod chain;
mod parts;
mod pieces;
