// The crate packets: a space of a line.
use crate::dues::{low_word, place};
use cases::{MOST_WORDS, Numbers, after_words, number, taken_words};
use refusal::{Refusal, Refused};
use words::FillWords;

fn of_space(space: Result<usize, Refused>) -> Numbers {
    let (answer, packets) = match space {
        Ok(packets) => (Refusal::NONE, packets),
        Err(refused) => (Refusal::from(refused), 0),
    };
    Numbers::one(answer.number)
        .with_place(answer.place)
        .with_place(packets)
}

// The words of fill that two numbers tell.
fn fill(payload: &[u8], at: usize) -> FillWords {
    FillWords {
        even: low_word(number(payload, at)),
        odd: low_word(number(payload, at.wrapping_add(4))),
    }
}

fn judged(payload: &[u8], words: &mut [u16]) -> Numbers {
    let (start, end) = (place(payload, 0), place(payload, 8));
    of_space(packets::judge_space(words, start, end, fill(payload, 16)))
}

// FillWords::at.
pub(crate) fn fill_word(payload: &[u8]) -> Numbers {
    Numbers::one(u32::from(fill(payload, 0).at(place(payload, 8))))
}

// packets::judge_space: its start and end, the fill, and the words.
pub(crate) fn judge(payload: &[u8]) -> Numbers {
    let mut words = [0u16; MOST_WORDS];
    if after_words(payload, MOST_WORDS, 24, 28) != payload.len() {
        return Numbers::none();
    }
    judged(payload, taken_words(payload, 24, 28, &mut words))
}
