// The crate programme: recording a line, at a walk and on a tape. Each is of a row, ready packet words for both spaces and room for the line's
// bytes; what comes before them is the head.
use crate::tapes::{of_tape, tape};
use cases::{
    MOST_BYTES, MOST_WORDS, Numbers, WALK, after_bytes, after_words, number, part, put_bytes,
    put_numbers, taken_bytes, taken_words, walk,
};
use programme::Tape;
use std::num::wrapping_add_usize;

// programme::record.
fn record(head: &[u8], row: &[u8], between: &[u16], active: &[u16], line: &mut [u8]) -> Numbers {
    let fall = number(head, WALK);
    let judgement = programme::record(walk(head, 0), fall, row, between, active, line);
    Numbers::of_judgement(judgement)
}

// Tape::next.
fn tape_next(head: &[u8], row: &[u8], between: &[u16], active: &[u16], line: &mut [u8]) -> Numbers {
    let before: Tape = tape(head);
    of_tape(before.next(row, between, active, line))
}

fn called(
    kind: u32,
    head: &[u8],
    row: &[u8],
    between: &[u16],
    active: &[u16],
    line: &mut [u8],
) -> Numbers {
    match kind {
        80 => record(head, row, between, active, line),
        _ => tape_next(head, row, between, active, line),
    }
}

fn put_called(
    kind: u32,
    head: &[u8],
    row: &[u8],
    between: &mut [u16],
    active: &mut [u16],
    line: &mut [u8],
    answer: &mut [u8],
) -> usize {
    let at_line = put_numbers(answer, called(kind, head, row, between, active, line));
    put_bytes(answer, at_line, line)
}

// The offset of a slice, or of the end behind the last, where that of their lengths is this.
fn offset(payload: &[u8], at: usize, index: u8) -> usize {
    let row = wrapping_add_usize(at, 16);
    if index == 0 {
        return row;
    }
    let between = after_bytes(payload, MOST_BYTES, at, row);
    if index == 1 {
        return between;
    }
    let active = after_words(payload, MOST_WORDS, wrapping_add_usize(at, 4), between);
    if index == 2 {
        return active;
    }
    let line = after_words(payload, MOST_WORDS, wrapping_add_usize(at, 8), active);
    if index == 3 {
        return line;
    }
    after_bytes(payload, MOST_BYTES, wrapping_add_usize(at, 12), line)
}

// With the slices of the lengths that the payload tells from an offset on.
fn with_rooms(
    kind: u32,
    at: usize,
    payload: &[u8],
    between: &mut [u16],
    active: &mut [u16],
    line: &mut [u8],
    answer: &mut [u8],
) -> usize {
    let at_between = offset(payload, at, 1);
    put_called(
        kind,
        payload,
        part(payload, offset(payload, at, 0), at_between),
        taken_words(payload, wrapping_add_usize(at, 4), at_between, between),
        taken_words(
            payload,
            wrapping_add_usize(at, 8),
            offset(payload, at, 2),
            active,
        ),
        taken_bytes(
            payload,
            wrapping_add_usize(at, 12),
            offset(payload, at, 3),
            line,
        ),
        answer,
    )
}

// A call by its kind, with so many bytes before its slices.
pub(crate) fn with_room(kind: u32, at: usize, payload: &[u8], answer: &mut [u8]) -> usize {
    let mut between = [0u16; MOST_WORDS];
    let mut active = [0u16; MOST_WORDS];
    let mut line = [0u8; MOST_BYTES];
    if offset(payload, at, 4) != payload.len() {
        return 0;
    }
    with_rooms(
        kind,
        at,
        payload,
        &mut between,
        &mut active,
        &mut line,
        answer,
    )
}
