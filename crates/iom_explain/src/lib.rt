//! The word `explain`: it writes each line of a script with its answer, and each access with its reasons.
#![tactic(auto)]

pub use explaining::{Explaining, explain};
pub use only::Only;

mod accesses;
mod asking;
mod explaining;
mod only;
mod steps;
mod summary;
mod text;
mod walk;
