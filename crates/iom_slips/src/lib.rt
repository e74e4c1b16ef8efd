//! Why a line can't be read: which word or number is wrong, and what is wanted.
#![tactic(auto)]

pub use iom_tool::Reply;
pub use slips::slip;
pub use statements::statement_slip;
pub use telling::slips_are_told;

mod choosing;
mod items;
mod patterns;
mod pieces;
mod quoting;
mod ranges;
mod slips;
mod statements;
mod telling;
