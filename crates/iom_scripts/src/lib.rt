//! Scripts of `check`, `debug`, `explain` and `judge`, with the texts that they include, on the platform of an image.
#![tactic(auto)]

pub use checking::{CheckedScript, check_script};
pub use debugging::debug_script;
pub use explaining::explain_script;
pub use fault::ScriptFault;
pub use judging::judge_script;
pub use played::requests_named;

mod beginning;
mod checking;
mod debugging;
mod explaining;
mod fault;
mod judging;
mod marking;
mod played;
