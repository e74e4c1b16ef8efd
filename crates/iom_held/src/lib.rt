//! The entries that an IOMMU may hold, found by what a look-up asks (RISC-V IOMMU Architecture 1.0, "Caching in-memory data structures").
#![tactic(auto)]

pub use entries::HeldEntries;
pub use kept::Kept;
pub use naming::Naming;
pub use tags::{Tag, device_tags, file_tags, first_tags, page_tags, second_tags, tag_of};

mod entries;
mod growing;
mod kept;
mod lending;
mod naming;
mod shelves;
mod tags;
