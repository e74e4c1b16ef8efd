//! The translation cache and the context cache (RISC-V IOMMU Architecture 1.0, "Caching in-memory data structures"): lists of
//! places, oldest first, which fills append to and commands empty.
#![tactic(auto)]

pub use contexts::{CONTEXT_ROOM, ContextCache};
pub use drops::{
    above, drops_device, drops_page, guests_and_host_are_apart, meets_part, range_width, vma_guest,
    vma_process,
};
pub use key::{Key, gscid_of, key_of};
pub use place::Place;
pub use ranges::{ranges_are_as_named, ranges_meet_in_a_page};
pub use translations::{PAGE_ROOM, TransCache};

mod contexts;
mod drops;
mod index;
mod key;
mod place;
mod ranges;
mod translations;
