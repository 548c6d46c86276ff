// The crate index: entries, trailers, and questions asked at once and in steps.
use cases::{
    MOST_BYTES, Numbers, after_bytes, number, part, put_bytes, put_numbers, taken_bytes, wide,
};
use index::{Entry, Question, Trailer};
use refusal::{Refusal, Refused};
use std::num::wrapping_add_usize;

// The bytes of the numbers that tell a question.
const QUESTION: usize = 68;

// The longest index.
const MOST_INDEX: usize = 65_536;

fn of_entry(entry: Entry) -> Numbers {
    Numbers::one(entry.ordinal).with(entry.repairs)
}

// Entry::of, of the six bytes behind their count.
fn entry_of(payload: &[u8]) -> Numbers {
    if payload.len() != 10 {
        return Numbers::none();
    }
    of_entry(Entry::of([
        payload[4], payload[5], payload[6], payload[7], payload[8], payload[9],
    ]))
}

pub(crate) fn of_trailer(trailer: Trailer) -> Numbers {
    Numbers::none()
        .with_wide(trailer.offset)
        .with(trailer.entries)
        .with(trailer.lines)
}

// Trailer::of.
fn trailer_of(payload: &[u8]) -> Numbers {
    if payload.len() < 4 {
        return Numbers::none();
    }
    of_trailer(Trailer::of(&payload[4..]))
}

// The entry that the first numbers tell, and the trailer.
fn entry(payload: &[u8]) -> Entry {
    Entry {
        ordinal: number(payload, 0),
        repairs: number(payload, 4),
    }
}

fn trailer(payload: &[u8]) -> Trailer {
    Trailer {
        offset: wide(payload, 0),
        entries: number(payload, 8),
        lines: number(payload, 12),
    }
}

fn put_by(kind: u32, payload: &[u8], room: &mut [u8]) -> Result<(), Refused> {
    if kind == 141 {
        return entry(payload).put(room);
    }
    trailer(payload).put(room)
}

fn put_filled(kind: u32, payload: &[u8], room: &mut [u8], answer: &mut [u8]) -> usize {
    let result = put_by(kind, payload, room);
    let at_room = put_numbers(answer, Numbers::of_result(result));
    put_bytes(answer, at_room, room)
}

// Entry::put, with the count of its room behind two numbers, or Trailer::put, behind four.
pub(crate) fn with_room(kind: u32, at: usize, payload: &[u8], answer: &mut [u8]) -> usize {
    let mut room = [0u8; MOST_BYTES];
    let at_room = wrapping_add_usize(at, 4);
    if after_bytes(payload, MOST_BYTES, at, at_room) != payload.len() {
        return 0;
    }
    put_filled(
        kind,
        payload,
        taken_bytes(payload, at, at_room, &mut room),
        answer,
    )
}

fn of_asked(asked: Result<bool, Refused>) -> Numbers {
    let (answer, clean) = match asked {
        Ok(clean) => (Refusal::NONE, clean),
        Err(refused) => (Refusal::from(refused), false),
    };
    Numbers::one(answer.number)
        .with_place(answer.place)
        .with_truth(clean)
}

// index::ask, of system, start, length, a, b, and then of a trailer and an index.
fn ask(payload: &[u8]) -> Numbers {
    let at_index = after_bytes(payload, MOST_BYTES, 24, 32);
    if after_bytes(payload, MOST_INDEX, 28, at_index) != payload.len() {
        return Numbers::none();
    }
    of_asked(index::ask(
        number(payload, 0),
        number(payload, 4),
        part(payload, 32, at_index),
        part(payload, at_index, payload.len()),
        wide(payload, 8),
        number(payload, 16),
        number(payload, 20),
    ))
}

fn of_question(question: Question) -> Numbers {
    Numbers::one(question.system)
        .with(question.start)
        .with(question.lines)
        .with(question.a)
        .with(question.b)
        .with_wide(question.left)
        .with(question.place)
        .with_byte(question.c0)
        .with_byte(question.c1)
        .with_byte(question.c2)
        .with_byte(question.c3)
        .with_byte(question.c4)
        .with_wide(question.least)
        .with_truth(question.unclean)
        .with_truth(question.wrong)
}

// Question::begin, of the same numbers, and then of a trailer.
fn begin(payload: &[u8]) -> Numbers {
    if payload.len() < 28 {
        return Numbers::none();
    }
    of_question(Question::begin(
        number(payload, 0),
        number(payload, 4),
        &payload[28..],
        wide(payload, 8),
        number(payload, 16),
        number(payload, 20),
    ))
}

// A byte, from the number at an offset.
fn byte(payload: &[u8], at: usize) -> u8 {
    (number(payload, at) % 256) as u8
}

// The question that the first numbers tell.
fn question(payload: &[u8]) -> Question {
    Question {
        system: number(payload, 0),
        start: number(payload, 4),
        lines: number(payload, 8),
        a: number(payload, 12),
        b: number(payload, 16),
        left: wide(payload, 20),
        place: number(payload, 28),
        c0: byte(payload, 32),
        c1: byte(payload, 36),
        c2: byte(payload, 40),
        c3: byte(payload, 44),
        c4: byte(payload, 48),
        least: wide(payload, 52),
        unclean: number(payload, 60) == 1,
        wrong: number(payload, 64) == 1,
    }
}

// Question::feed, with the bytes behind the question and their count.
fn feed(payload: &[u8]) -> Numbers {
    if payload.len() < QUESTION + 4 {
        return Numbers::none();
    }
    let before: Question = question(payload);
    of_question(before.feed(&payload[QUESTION + 4..]))
}

// Question::refusal.
fn refusal(payload: &[u8]) -> Numbers {
    if payload.len() != QUESTION {
        return Numbers::none();
    }
    let ended: Question = question(payload);
    Numbers::of_result(ended.refusal())
}

// Question::close.
fn close(payload: &[u8]) -> Numbers {
    if payload.len() != QUESTION {
        return Numbers::none();
    }
    let ended: Question = question(payload);
    of_asked(ended.close())
}

// The cases whose answers are numbers only.
pub(crate) fn answer_case(kind: u32, payload: &[u8]) -> Numbers {
    match kind {
        140 => entry_of(payload),
        142 => trailer_of(payload),
        144 => ask(payload),
        145 => begin(payload),
        146 => feed(payload),
        147 => refusal(payload),
        148 => close(payload),
        _ => Numbers::none(),
    }
}
