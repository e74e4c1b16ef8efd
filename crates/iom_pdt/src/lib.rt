//! The process directories of devices, and process contexts (RISC-V IOMMU Architecture 1.0, "Process-directory-table").
#![tactic(auto)]

pub use context::{ProcessContext, ProcessFields, context_of, encode_context};
pub use directory::{Depth, ProcessDirectory, is_too_wide};
pub use locating::{Unlocated, locate};
pub use request::{First, Process, Processes, class_in, first_of};

mod context;
mod directory;
mod locating;
mod request;
