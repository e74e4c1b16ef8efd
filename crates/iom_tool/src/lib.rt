//! The script: lines in, answer lines out.
#![tactic(auto)]

pub use console::{Console, Reply};
pub use data::put_bytes_of;
pub use draft::{ANSWER_ROOM, ReplyDraft};
pub use feeder::Feeder;
pub use iom_reader::{RunFault, WatchedReader, WatchedWriter};
pub use language::{Actor, Inquiry, Language, Line, Question};
pub use matching::{MOST_BYTES_OF_A_LINE, line_of, step_of};
pub use names::{block_register_named, register_named};
pub use rereading::steps_are_read_again;
pub use reserved::is_reserved;
pub use running::{run, run_watched};
pub use told::{answer_text, put_traced_step};
pub use trace::{Trace, TracedStep};

mod console;
mod data;
mod debugger;
mod draft;
mod feeder;
mod language;
mod matching;
mod names;
mod operands;
mod rereading;
mod reserved;
mod rows;
mod running;
mod script;
mod text;
mod told;
mod trace;
