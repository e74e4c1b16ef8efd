//! Items in memory (commands, fault records, contexts, entries of directories and page tables): their lines, and the words of the
//! statements that state them.
#![tactic(auto)]

pub use capabilities::features_for;
pub use commands::command_line;
pub use forms::{ItemWords, command_named, words_for, words_on};
pub use given::operands_are_what_is_given;
pub use item::Item;
pub use layouts::{Field, Layout};
pub use lines::{Line, context_line, item_line, item_line_on, pte_line};
pub use operands::{Operand, is_given, operand_of};
pub use telling::{items_are_told_again, lines_tell_what_is_read};

mod capabilities;
mod commands;
mod forms;
mod given;
mod item;
mod layouts;
mod lines;
mod operands;
mod telling;
