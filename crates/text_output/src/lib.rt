//! Text that goes out to a writer: gathered, handed out in pieces, and known after a fault; and the numbers of output.
#![tactic(auto)]

mod numbers;
mod writing;

pub use numbers::{
    put_byte, put_bytes, put_decimal, put_hexadecimal, put_line_number, put_over_zeros,
    put_padded_decimal, write_word,
};
pub use writing::{Gathered, WriteFault};
