// What the cases of the tests bring and what their answers give: numbers and records first, then slices, all low byte first.
#![tactic(auto)]

mod answer;
mod numbers;
mod payload;

pub use answer::{put_bytes, put_numbers, put_words};
pub use numbers::Numbers;
pub use payload::{
    WALK, after_bytes, after_words, count, number, part, report, taken_bytes, taken_words, walk,
    wide,
};

// The longest slice of words that comes with a line, and of bytes.
pub const MOST_WORDS: usize = 2_000;

pub const MOST_BYTES: usize = 2 * MOST_WORDS;
