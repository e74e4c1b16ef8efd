//! Interrupts by message (RISC-V IOMMU Architecture 1.0, "Interrupts").
#![tactic(auto)]

pub use laws::{
    each_rise_is_told_once, quiet_steps_signal_nothing, refusals_raise_fip_at_most, signals_reach,
};
pub use signalling::{Noted, signal};

mod laws;
mod signalling;
