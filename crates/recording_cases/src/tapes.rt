// The crate programme: tapes.
use cases::{Numbers, WALK, count, number, walk};
use programme::Tape;

// The bytes of the numbers that tell a tape: its walk's, the most lines, the fall line, number and place.
pub(crate) const TAPE: usize = WALK + 16;

// The tape that the first numbers of these bytes tell.
pub(crate) fn tape(payload: &[u8]) -> Tape {
    Tape {
        walk: walk(payload, 0),
        most: number(payload, WALK),
        fall: number(payload, WALK + 4),
        number: number(payload, WALK + 8),
        place: count(payload, WALK + 12),
    }
}

pub(crate) fn of_tape(tape: Tape) -> Numbers {
    Numbers::none()
        .with_walk(tape.walk)
        .with(tape.most)
        .with(tape.fall)
        .with(tape.number)
        .with_place(tape.place)
}

// Tape::begin.
pub(crate) fn begin(payload: &[u8]) -> Numbers {
    if payload.len() != 16 {
        return Numbers::none();
    }
    of_tape(Tape::begin(
        number(payload, 0),
        number(payload, 4),
        number(payload, 8),
        number(payload, 12),
    ))
}

fn answered(kind: u32, at: Tape) -> Numbers {
    match kind {
        111 => Numbers::none().with_truth(at.turns()),
        112 => of_tape(at.turned()),
        _ => Numbers::none().with_truth(at.ends()),
    }
}

// Tape::turns, Tape::turned, or Tape::ends.
pub(crate) fn asked(kind: u32, payload: &[u8]) -> Numbers {
    if payload.len() != TAPE {
        return Numbers::none();
    }
    answered(kind, tape(payload))
}
