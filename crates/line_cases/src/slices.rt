// Several slices of words in a payload: their lengths stand one after another, and behind those the slices.
use cases::{MOST_WORDS, after_words, taken_words};

// The offset of a slice, or of the end behind the last, where so many lengths stand from an offset on.
pub(crate) fn offset(payload: &[u8], at: usize, slices: u8, index: u8) -> usize {
    let mut at_count = at;
    let mut next = at.wrapping_add(4 * usize::from(slices));
    for _ in 0..index {
        next = after_words(payload, MOST_WORDS, at_count, next);
        at_count = at_count.wrapping_add(4);
    }
    next
}

// Whether the payload ends behind so many slices.
pub(crate) fn are_all(payload: &[u8], at: usize, slices: u8) -> bool {
    offset(payload, at, slices, slices) == payload.len()
}

// One of the slices, by way of room for it.
pub(crate) fn taken<'a>(
    payload: &[u8],
    at: usize,
    slices: u8,
    index: u8,
    room: &'a mut [u16],
) -> &'a mut [u16] {
    let at_count = at.wrapping_add(4 * usize::from(index));
    taken_words(payload, at_count, offset(payload, at, slices, index), room)
}
