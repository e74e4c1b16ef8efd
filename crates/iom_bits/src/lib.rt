//! Bits, bytes and fault causes: the words that every crate of the model shares.
#![tactic(auto)]

pub use bit_fields::{field, flag, has_bit, le_u16, le_u32, le_u64, with_field};
pub use causes::{Cause, Kind};
pub use features::{
    DELAYS, Features, Interrupts, MSI_FLAT, NL, ROWS, Row, S, SV57, SV57X4, SVPBMT, Vectors,
    all_bits, rows_are_apart, shown_bits,
};
pub use number::Number;

mod bit_fields;
mod causes;
mod features;
mod number;
