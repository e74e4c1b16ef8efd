//! A platform's memory, its IOMMU, messages and block devices, and which steps filled the caches, as words of 64 bits, and what such words are.
#![tactic(auto)]

pub use boards::{put_board, take_board};
pub use byte_words::{bytes_of, word_at, words_of};
pub use check::check_of;
pub use histories::{put_history, take_history};
pub use laws::words_tell_apart;
pub use memory::{put_memory, take_memory};
pub use words::{SavedFault, SavedWords};

mod boards;
mod byte_words;
mod check;
mod contexts;
mod devices;
mod histories;
mod laws;
mod memory;
mod messages;
mod pages;
mod parts;
mod phases;
mod registers;
mod requests;
mod words;
