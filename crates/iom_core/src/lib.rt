//! The platform: memory, the IOMMU and the steps that its actors take.
#![tactic(auto)]

pub use access::{Denial, Request};
pub use board::Board;
pub use law::freshness;
pub use looking::Lookup;
pub use others::others_write;
pub use platform::Platform;
pub use port::Port;
pub use step::{Answer, Step};
pub use warrant::Warrant;
pub use way::Way;
pub use witness::{Event, Source, Witness};

mod access;
mod asking;
mod board;
mod caches;
mod command;
mod devices;
mod hart;
mod interrupts;
mod iommu;
mod law;
mod led;
mod looking;
mod others;
mod parts;
mod platform;
mod port;
mod step;
mod warrant;
mod way;
mod witness;
