// The calls on four slices: taking a line's samples, and writing a line of an active part.
use crate::dues::due;
use crate::slices::{are_all, taken};
use cases::{MOST_WORDS, Numbers, put_numbers, put_words, walk};

fn put_samples(answer: &mut [u8], at: usize, y: &[u16], cb: &[u16], cr: &[u16]) -> usize {
    let at_cb = put_words(answer, at, y);
    let at_cr = put_words(answer, at_cb, cb);
    put_words(answer, at_cr, cr)
}

// reader::take.
fn take(payload: &[u8], words: &[u16], y: &mut [u16], cb: &mut [u16], cr: &mut [u16]) -> Numbers {
    Numbers::of_result(reader::take(walk(payload, 0), words, y, cb, cr))
}

// writer::write_part.
fn write_part(
    payload: &[u8],
    part: &[u16],
    between: &[u16],
    active: &[u16],
    words: &mut [u16],
) -> Numbers {
    Numbers::of_result(writer::write_part(due(payload), part, between, active, words))
}

fn called(
    kind: u32,
    payload: &[u8],
    first: &mut [u16],
    second: &mut [u16],
    third: &mut [u16],
    fourth: &mut [u16],
) -> Numbers {
    match kind {
        3 => take(payload, first, second, third, fourth),
        _ => write_part(payload, first, second, third, fourth),
    }
}

// Of a slice between the first and the last, what is answered: samples are taken into those, and a line is written from them.
fn shown(kind: u32, slice: &[u16]) -> &[u16] {
    if kind == 3 {
        return slice;
    }
    &slice[0..0]
}

fn put_called(
    kind: u32,
    payload: &[u8],
    first: &mut [u16],
    second: &mut [u16],
    third: &mut [u16],
    fourth: &mut [u16],
    answer: &mut [u8],
) -> usize {
    let numbers = called(kind, payload, first, second, third, fourth);
    let at = put_numbers(answer, numbers);
    put_samples(answer, at, shown(kind, second), shown(kind, third), fourth)
}

// With the slices of the lengths that the payload tells from an offset on.
fn with_rooms(
    kind: u32,
    at: usize,
    payload: &[u8],
    first: &mut [u16],
    second: &mut [u16],
    third: &mut [u16],
    fourth: &mut [u16],
    answer: &mut [u8],
) -> usize {
    put_called(
        kind,
        payload,
        taken(payload, at, 4, 0, first),
        taken(payload, at, 4, 1, second),
        taken(payload, at, 4, 2, third),
        taken(payload, at, 4, 3, fourth),
        answer,
    )
}

// reader::take or writer::write_part: the offset is that of the slices' lengths.
pub(crate) fn with_four(kind: u32, at: usize, payload: &[u8], answer: &mut [u8]) -> usize {
    let mut first = [0u16; MOST_WORDS];
    let mut second = [0u16; MOST_WORDS];
    let mut third = [0u16; MOST_WORDS];
    let mut fourth = [0u16; MOST_WORDS];
    if !are_all(payload, at, 4) {
        return 0;
    }
    with_rooms(
        kind,
        at,
        payload,
        &mut first,
        &mut second,
        &mut third,
        &mut fourth,
        answer,
    )
}
