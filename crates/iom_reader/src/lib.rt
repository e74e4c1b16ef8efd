//! A script, cut into lines, whoever answers them.
#![tactic(auto)]

pub use answerer::Answerer;
pub use calls::{ReadCalls, WriteCalls};
pub use fault::RunFault;
pub use reading::answer_all;
pub use rest::Rest;
pub use watched::{WatchedReader, WatchedWriter};
pub use writing::write_out;

mod answerer;
mod calls;
mod fault;
mod reading;
mod rest;
mod watched;
mod writing;
