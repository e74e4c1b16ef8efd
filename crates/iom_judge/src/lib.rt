//! Judges the answers of another IOMMU: could some IOMMU answer so that keeps whatever it likes in its caches, and whose commands take effect at the
//! next fence at the latest (RISC-V IOMMU Architecture 1.0, "Caching in-memory data structures", "IOMMU Command-queue Fence commands")? A judge
//! keeps every state that such an IOMMU can have after the steps so far.
#![tactic(auto)]

pub use candidate::Candidate;
pub use judge::{Judge, Verdict};
pub use law::traces_are_judged_right;
pub use possible::Possible;
pub use seen::Seen;

mod alone;
mod behind;
mod candidate;
mod copying;
mod covering;
mod holding;
mod including;
mod judge;
mod law;
mod possible;
mod putting;
mod seen;
mod thinning;
mod unseen;
