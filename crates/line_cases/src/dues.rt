// What is due: the crates system and line.
use crate::systems::system_number;
use cases::{Numbers, WALK, number, wide};
use line::What;
use system::{Due, Walk};
use words::FillWords;

fn of_due(due: Due) -> Numbers {
    Numbers::one(system_number(due.system))
        .with_truth(due.f)
        .with_truth(due.v)
        .with(u32::from(due.fill.even))
        .with(u32::from(due.fill.odd))
}

fn pair(what: u32, value: u32) -> Numbers {
    Numbers::one(what).with(value)
}

// What is due, and the flags or the word that come with it.
fn of_what(what: What) -> Numbers {
    match what {
        What::Ones => pair(0, 0),
        What::Zeros => pair(1, 0),
        What::Fourth { fvh } => pair(2, fvh),
        What::Fill { word } => pair(3, u32::from(word)),
        What::Sample => pair(4, 0),
    }
}

pub(crate) fn low_word(number: u32) -> u16 {
    (number % 65536) as u16
}

// What is due, as five numbers tell it.
fn told(system: u32, f: u32, v: u32, even: u32, odd: u32) -> Due {
    Due {
        system: system::system_of(system),
        f: f == 1,
        v: v == 1,
        fill: FillWords {
            even: low_word(even),
            odd: low_word(odd),
        },
    }
}

// What is due, as the first five numbers tell it.
pub(crate) fn due(payload: &[u8]) -> Due {
    told(
        number(payload, 0),
        number(payload, 4),
        number(payload, 8),
        number(payload, 12),
        number(payload, 16),
    )
}

// What is due, as the five numbers behind a walk tell it.
pub(crate) fn due_behind(payload: &[u8]) -> Due {
    told(
        number(payload, WALK),
        number(payload, WALK + 4),
        number(payload, WALK + 8),
        number(payload, WALK + 12),
        number(payload, WALK + 16),
    )
}

pub(crate) fn place(payload: &[u8], at: usize) -> usize {
    wide(payload, at) as usize
}

// Due::of.
fn of(payload: &[u8]) -> Numbers {
    let system = system::system_of(number(payload, 0));
    of_due(Due::of(system, number(payload, 4), number(payload, 8)))
}

// Due::flags.
fn flags(payload: &[u8]) -> Numbers {
    let due: Due = due(payload);
    Numbers::one(due.flags(number(payload, 20) == 1))
}

// line::due_at.
fn at(payload: &[u8]) -> Numbers {
    let due: Due = due(payload);
    of_what(line::due_at(due, place(payload, 20)))
}

// line::buffer_refusal.
fn buffer_refusal(payload: &[u8]) -> Numbers {
    Numbers::of_result(line::buffer_refusal(
        place(payload, 0),
        place(payload, 8),
        place(payload, 16),
    ))
}

// Walk::due.
pub(crate) fn at_walk(walk: Walk, payload: &[u8]) -> Numbers {
    of_due(walk.due(low_word(number(payload, WALK))))
}

pub(crate) fn answered(kind: u32, payload: &[u8]) -> Numbers {
    match kind {
        30 => of(payload),
        31 => flags(payload),
        32 => at(payload),
        33 => buffer_refusal(payload),
        35 => Numbers::none().with_truth(words::reserved(low_word(number(payload, 0)))),
        _ => Numbers::none(),
    }
}
