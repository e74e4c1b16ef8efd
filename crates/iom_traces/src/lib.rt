//! Traces of other IOMMUs, as scripts whose comments say what was seen: which lines no IOMMU could answer so (RISC-V IOMMU Architecture 1.0,
//! "Caching in-memory data structures").
#![tactic(auto)]

pub use judging::Judging;
pub use law::traces_without_failures_are_allowed;
pub use sights::{Sight, sight_of};
pub use trial::{Trial, judge_trace};

mod judging;
mod law;
mod reporting;
mod rulings;
mod sights;
mod texts;
mod trial;
