//! The lines of a text, the words of a line, the numbers that words write, and lines that are written word by word.
#![tactic(auto)]

mod blank_words;
mod components;
mod cut;
mod decimal;
mod fault;
mod fields;
mod fixed_text;
mod front_number;
mod law;
mod number;
mod pieces;
mod spelling;
mod text_lines;
mod word_values;

pub use blank_words::Words;
pub use components::{point_with, shift_with};
pub use cut::words;
pub use decimal::grid_number;
pub use fault::{ReadFault, TextFault, TextWhy};
pub use fields::{Field, put_line, put_word};
pub use fixed_text::{fixed, put_coordinate};
pub use law::fixed_is_read;
pub use number::{DIGITS_MAX, NumberWhy, number_within, whole, whole_parts};
pub use pieces::{Parts, cut_at};
pub use spelling::{
    count_parts_up_to, count_with_end, spelled_at, spelled_from, spelled_number, spelled_parts,
    spelled_signed_at, spelled_wide_at,
};
pub use text_lines::{Line, Lines};
pub use word_values::{coordinate, count_is, count_up_to, is_word, number_at, signed_at};
