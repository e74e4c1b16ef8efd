//! The queues between software and the IOMMU (RISC-V IOMMU Architecture 1.0, "In-memory queue
//! interface"): commands, fault records, fetch and delivery.
#![tactic(auto)]

pub use command::{Command, decode_command, encode_command, is_offered};
pub use delivery::deliver;
pub use fetch::{Fetch, next_command};
pub use record::{Record, decode_record, encode_record, is_reported};

mod command;
mod delivery;
mod fetch;
mod fields;
mod record;
