//! What an IOMMU may hold after the steps of a platform, whatever it keeps and forgets, and the requests to which that makes a difference
//! (RISC-V IOMMU Architecture 1.0, "Caching in-memory data structures"): kept beside a platform that takes its steps. Besides the requests of
//! devices an IOMMU may read those of a list ahead, by memory alone.
#![tactic(auto)]

pub use executing::executed;
pub use gathering::{gather, put_reads};
pub use holdings::Holdings;
pub use iom_held::{Kept, Naming};
pub use law::{owed_pages_are_of_each_byte, settled_steps_are_answered_alike};
pub use noting::Made;
pub use settling::{Judgement, Owed, Unsettled};

mod ahead;
mod executing;
mod forms;
mod gathering;
mod holdings;
mod law;
mod naming;
mod noting;
mod serving;
mod settling;
