//! The words of a line, the numbers that words write, and the texts of numbers: for scripts, assembler texts and answers.
#![tactic(auto)]

pub use lines::line_end;
pub use reading::{
    LineWords, MOST_WORDS, is_over, number, past_blanks, take_number, take_word, words,
};
pub use values::digit_value;
pub use writing::{Numeral, decimal, hexadecimal, put_decimal, put_hex};

mod lines;
mod reading;
mod values;
mod writing;
