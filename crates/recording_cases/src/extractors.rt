// The crate programme: extracting a line, at a walk and in a run. Each is of a line's bytes and of room for a row; what comes before them is the
// head.
use crate::runs::{of_run, run};
use cases::{MOST_BYTES, Numbers, after_bytes, part, put_bytes, put_numbers, taken_bytes, walk};
use programme::Extraction;
use std::num::wrapping_add_usize;

// programme::extract.
fn extract(head: &[u8], line: &[u8], row: &mut [u8]) -> Numbers {
    let judgement = programme::extract(walk(head, 0), line, row);
    Numbers::of_judgement(judgement)
}

fn of_extraction(extraction: Extraction) -> Numbers {
    of_run(extraction.run).with_truth(extraction.gives)
}

// programme::extract_next.
fn extract_next(head: &[u8], line: &[u8], row: &mut [u8]) -> Numbers {
    of_extraction(programme::extract_next(run(head), line, row))
}

fn called(kind: u32, head: &[u8], line: &[u8], row: &mut [u8]) -> Numbers {
    match kind {
        81 => extract(head, line, row),
        _ => extract_next(head, line, row),
    }
}

fn put_called(kind: u32, head: &[u8], line: &[u8], row: &mut [u8], answer: &mut [u8]) -> usize {
    let at_row = put_numbers(answer, called(kind, head, line, row));
    put_bytes(answer, at_row, row)
}

// A call by its kind, with so many bytes before its slices: a line's bytes and room for a row.
pub(crate) fn with_room(kind: u32, at: usize, payload: &[u8], answer: &mut [u8]) -> usize {
    let mut room = [0u8; MOST_BYTES];
    let at_line = wrapping_add_usize(at, 8);
    let at_row = after_bytes(payload, MOST_BYTES, at, at_line);
    let row_count = wrapping_add_usize(at, 4);
    if after_bytes(payload, MOST_BYTES, row_count, at_row) != payload.len() {
        return 0;
    }
    put_called(
        kind,
        payload,
        part(payload, at_line, at_row),
        taken_bytes(payload, row_count, at_row, &mut room),
        answer,
    )
}
