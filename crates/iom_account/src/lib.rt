//! An account of the steps of a platform, or of a board in front of a memory that is handed to it: which steps filled the entries in the
//! caches, so that the origin of each translation is known, and why each of the last 32 steps was answered as it was (RISC-V IOMMU
//! Architecture 1.0, "Caching in-memory data structures").
#![tactic(auto)]

pub use account::Account;
pub use explaining::explain;
pub use history::{FilledBy, History, Taken};
pub use origin::NumberedWarrant;
pub use others::others_are_not_counted;
pub use reason::Reason;

mod account;
mod explaining;
mod history;
mod kept;
mod notes;
mod numbers;
mod origin;
mod others;
mod reads;
mod reason;
