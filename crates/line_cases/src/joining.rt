// The crate words: two bytes as a word, and two words as a number.
use crate::dues::low_word;
use cases::{Numbers, number};

fn byte(number: u32) -> u8 {
    (number % 256) as u8
}

// words::word_of, words::pair_of.
pub(crate) fn answered(low: u32, high: u32, payload: &[u8]) -> Numbers {
    let word = words::word_of(byte(low), byte(high));
    let pair = words::pair_of(low_word(number(payload, 8)), low_word(number(payload, 12)));
    Numbers::one(u32::from(word)).with(pair)
}
