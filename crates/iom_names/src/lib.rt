//! Names that stand for numbers in the lines of a script.
#![tactic(auto)]

pub use names::{Binding, Names, is_let, is_line};
pub use replacing::LineText;

mod computing;
mod names;
mod replacing;
mod slips;
mod spelling;
