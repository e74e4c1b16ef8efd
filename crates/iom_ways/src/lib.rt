//! The ways that a request may be led by entries that an IOMMU may hold (RISC-V IOMMU Architecture 1.0, "Caching in-memory data structures"), as
//! `iom_choices` lists them over the walks of `iom_every`.
#![tactic(auto)]

pub use goes::goes_alike;
pub use laws::memory_leads_first;
pub use ways::{Ways, put_asked, put_ways};

mod access;
mod adding;
mod asked;
mod exploring;
mod file;
mod first;
mod found;
mod goes;
mod laws;
mod path;
mod under;
mod ways;
