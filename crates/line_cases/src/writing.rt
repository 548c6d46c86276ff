// The calls on six slices: writing a line of samples, by its number or by what is due.
use crate::dues::due;
use crate::slices::{are_all, taken};
use cases::{MOST_WORDS, Numbers, number, put_numbers, put_words};
use refusal::Refused;

// writer::write, or writer::write_line.
fn written(
    kind: u32,
    payload: &[u8],
    y: &[u16],
    cb: &[u16],
    cr: &[u16],
    between: &[u16],
    active: &[u16],
    words: &mut [u16],
) -> Result<(), Refused> {
    if kind == 43 {
        return writer::write_line(due(payload), y, cb, cr, between, active, words);
    }
    let system = number(payload, 0);
    let line = number(payload, 4);
    let fall = number(payload, 8);
    writer::write(system, line, fall, y, cb, cr, between, active, words)
}

fn put_written(
    kind: u32,
    payload: &[u8],
    y: &mut [u16],
    cb: &mut [u16],
    cr: &mut [u16],
    between: &mut [u16],
    active: &mut [u16],
    words: &mut [u16],
    answer: &mut [u8],
) -> usize {
    let result = written(kind, payload, y, cb, cr, between, active, words);
    let at = put_numbers(answer, Numbers::of_result(result));
    put_words(answer, at, words)
}

// With the slices of the lengths that the payload tells from an offset on.
fn with_rooms(
    kind: u32,
    at: usize,
    payload: &[u8],
    y: &mut [u16],
    cb: &mut [u16],
    cr: &mut [u16],
    between: &mut [u16],
    active: &mut [u16],
    words: &mut [u16],
    answer: &mut [u8],
) -> usize {
    put_written(
        kind,
        payload,
        taken(payload, at, 6, 0, y),
        taken(payload, at, 6, 1, cb),
        taken(payload, at, 6, 2, cr),
        taken(payload, at, 6, 3, between),
        taken(payload, at, 6, 4, active),
        taken(payload, at, 6, 5, words),
        answer,
    )
}

// The offset is that of the slices' lengths.
pub(crate) fn with_six(kind: u32, at: usize, payload: &[u8], answer: &mut [u8]) -> usize {
    let mut y = [0u16; MOST_WORDS];
    let mut cb = [0u16; MOST_WORDS];
    let mut cr = [0u16; MOST_WORDS];
    let mut between = [0u16; MOST_WORDS];
    let mut active = [0u16; MOST_WORDS];
    let mut words = [0u16; MOST_WORDS];
    if !are_all(payload, at, 6) {
        return 0;
    }
    with_rooms(
        kind,
        at,
        payload,
        &mut y,
        &mut cb,
        &mut cr,
        &mut between,
        &mut active,
        &mut words,
        answer,
    )
}
