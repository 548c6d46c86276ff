// The crate finished: lines on their way into a finished file, and its index beside that of its lines.
use crate::questions::of_trailer;
use crate::runs::{RUN, of_run, run};
use cases::{MOST_BYTES, Numbers, after_bytes, number, part, put_bytes, put_numbers, taken_bytes};
use finished::{Finishing, Made, Meeting};

// The bytes of the numbers that tell lines on their way: those of a run, and the entries.
const FINISHING: usize = RUN + 4;

// The longest lines that come at once, and the longest index.
const MOST_LINES: usize = 131_072;

fn finishing(payload: &[u8]) -> Finishing {
    Finishing {
        run: run(payload),
        entries: number(payload, RUN),
    }
}

fn of_finishing(finishing: Finishing) -> Numbers {
    of_run(finishing.run).with(finishing.entries)
}

// Finishing::of.
fn of(payload: &[u8]) -> Numbers {
    if payload.len() != RUN {
        return Numbers::none();
    }
    of_finishing(Finishing::of(run(payload)))
}

// Finishing::close, with the bytes behind their count.
fn close(payload: &[u8]) -> Numbers {
    if payload.len() < FINISHING + 4 {
        return Numbers::none();
    }
    let before: Finishing = finishing(payload);
    of_finishing(before.close(&payload[FINISHING + 4..]))
}

// Finishing::trailer.
fn trailer(payload: &[u8]) -> Numbers {
    if payload.len() != FINISHING {
        return Numbers::none();
    }
    let ended: Finishing = finishing(payload);
    of_trailer(ended.trailer())
}

fn meeting(differs: u32, ordinal: u32) -> Meeting {
    Meeting {
        differs: differs == 1,
        ordinal,
    }
}

fn of_meeting(meeting: Meeting) -> Numbers {
    Numbers::none()
        .with_truth(meeting.differs)
        .with(meeting.ordinal)
}

// Meeting::meet, with the entries of lines and those of an index.
fn meet(payload: &[u8]) -> Numbers {
    let at_theirs = after_bytes(payload, MOST_LINES, 8, 16);
    if after_bytes(payload, MOST_LINES, 12, at_theirs) != payload.len() {
        return Numbers::none();
    }
    let before: Meeting = meeting(number(payload, 0), number(payload, 4));
    of_meeting(before.meet(
        part(payload, 16, at_theirs),
        part(payload, at_theirs, payload.len()),
    ))
}

// A meeting behind a run.
fn met(payload: &[u8]) -> Meeting {
    meeting(number(payload, RUN), number(payload, RUN + 4))
}

// finished::is_theirs.
fn is_theirs(payload: &[u8]) -> Numbers {
    if payload.len() != RUN + 8 {
        return Numbers::none();
    }
    Numbers::none().with_truth(finished::is_theirs(run(payload), met(payload)))
}

// finished::differs_before.
fn differs_before(payload: &[u8]) -> Numbers {
    if payload.len() != RUN + 8 {
        return Numbers::none();
    }
    Numbers::none().with_truth(finished::differs_before(run(payload), met(payload)))
}

// The cases whose answers are numbers only.
pub(crate) fn answer_case(kind: u32, payload: &[u8]) -> Numbers {
    match kind {
        150 => of(payload),
        152 => close(payload),
        153 => trailer(payload),
        154 => meet(payload),
        155 => is_theirs(payload),
        156 => differs_before(payload),
        _ => Numbers::none(),
    }
}

fn of_made(made: Made) -> Numbers {
    of_finishing(made.finishing)
        .with_place(made.taken)
        .with_place(made.put)
}

fn put_followed(payload: &[u8], lines: &[u8], room: &mut [u8], answer: &mut [u8]) -> usize {
    let before: Finishing = finishing(payload);
    let made = before.follow(lines, room);
    let at_room = put_numbers(answer, of_made(made));
    put_bytes(answer, at_room, room)
}

// Finishing::follow, with the bytes of lines and room for an index.
pub(crate) fn with_room(payload: &[u8], answer: &mut [u8]) -> usize {
    let mut room = [0u8; MOST_BYTES];
    let at_room = after_bytes(payload, MOST_LINES, FINISHING, FINISHING + 8);
    if after_bytes(payload, MOST_BYTES, FINISHING + 4, at_room) != payload.len() {
        return 0;
    }
    put_followed(
        payload,
        part(payload, FINISHING + 8, at_room),
        taken_bytes(payload, FINISHING + 4, at_room, &mut room),
        answer,
    )
}
