//! The assembler, and listings of memory; it gives the calls of `iom_image` and `iom_items` on.
#![tactic(auto)]

pub use asm_fault::AsmFault;
pub use assembling::assemble;
pub use iom_image::{LoadFault, built_in, images_are_what_is_read, judge, load, upgrade};
pub use iom_items::{
    Item, Line, context_line, item_line, item_line_on, items_are_told_again,
    operands_are_what_is_given, words_for, words_on,
};
pub use list_fault::ListFault;
pub use listing::list;
pub use retelling::texts_are_told_again;

mod asm_fault;
mod assembling;
mod draft;
mod list_fault;
mod listing;
mod placing;
mod retelling;
mod statements;
