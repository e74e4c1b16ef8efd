//! What the tables in memory say: the entries by which a request is led if nothing is cached, and below a cached context; whether it is led
//! so; and whether the tables still say what a cache holds (RISC-V IOMMU Architecture 1.0, "Caching in-memory data structures").
#![tactic(auto)]

pub use iom_core::Way;
pub use listing::{Parts, put_parts, put_parts_under};
pub use part::{Part, Wide};
pub use places::{request_of, stale_context, stale_page};
pub use staleness::{differing, stale};
pub use standing::{Located, Standing};

mod listing;
mod part;
mod places;
mod staleness;
mod standing;
