//! Text that goes out around the answers: words put together, lines of pieces, the bytes of a script as they're shown,
//! and JSON.
#![tactic(auto)]

mod asked;
mod json;
mod letters;
mod pieces;
mod puts;
mod rows;
mod words;

pub use asked::{
    put_bad_cells, put_bad_length, put_left_out, put_misaligned, put_names_full, put_pool_exists,
    put_too_high,
};
pub use json::{
    Form, put_bytes_in, put_head, put_name, put_number_field, put_object_end, put_object_start,
    put_shown_in, put_string, put_string_field, put_truth_field,
};
pub use letters::column_of;
pub use pieces::{Piece, bytes_word, put_line, put_pieces, put_text};
pub use puts::{put_blanks, put_column, put_shown};
pub use rows::{
    Field, address, number, number_in_object, only_in_text, put_end, put_fields, put_row,
    put_start, text, truth,
};
pub use words::Words;
