//! The device directory and device contexts (RISC-V IOMMU Architecture 1.0, "Device-directory-table").
#![tactic(auto)]

pub use context::{Context, ContextFields, MsiTable};
pub use directory::{is_too_wide, locate, locate_below, path};
pub use encoding::{context_of, encode_context};
pub use formats::{ContextFormat, id_part, parts_of_ids_are_indexes};
pub use met::{DirectoryPath, Met};
pub use notes::Notes;
pub use refusal::{DirectoryWord, Refusal, entry_refusal, has_mode, why_refused};

mod context;
mod directory;
mod encoding;
mod formats;
mod met;
mod notes;
mod refusal;
