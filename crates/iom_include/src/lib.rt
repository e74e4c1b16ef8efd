//! Lines of a script that stand for the lines of other texts.
#![tactic(auto)]

pub use fault::{IncludeFault, Reason, TextFault};
pub use including::Including;
pub use law::{
    known_scripts_are_expanded, known_scripts_have_places,
    scripts_without_includes_stand_for_themselves,
};
pub use lines::file_of;
pub use texts::Texts;

mod expanding;
mod fault;
mod including;
mod kept;
mod law;
mod lines;
mod texts;
