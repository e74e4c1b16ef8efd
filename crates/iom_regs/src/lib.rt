//! The IOMMU's registers (RISC-V IOMMU Architecture 1.0, "Memory-mapped register interface").
#![tactic(auto)]

pub use busy::Busy;
pub use layout::{
    CAPABILITIES, CQB, CQCSR, CQH, CQT, DDTP, FCTL, FQB, FQCSR, FQH, FQT, ICVEC, IPSR, MSI_CFG_TBL,
    register_layout,
};
pub use offers::capabilities;
pub use regs::Regs;
pub use values::RegValues;
pub use vectors::MsiVector;
pub use views::{CommandErrors, FaultErrors, Mode, Queue, Which};

mod busy;
mod directory;
mod flags;
mod layout;
mod mapped;
mod offers;
mod regs;
mod ring;
mod table;
mod values;
mod vectors;
mod views;
