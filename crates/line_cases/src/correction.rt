// The crate timing, and correction as C calls it.
use cases::{Numbers, number};
use timing::Correction;

// A tag, and what comes with it.
fn found(tag: u32, fvh: u32, bit: u32, number: u32) -> Numbers {
    Numbers::one(tag).with(fvh).with(bit).with(number)
}

fn of_correction(correction: Correction) -> Numbers {
    match correction {
        Correction::Clean { fvh } => found(0, fvh, 0, 0),
        Correction::Repaired { fvh, bit } => found(1, fvh, bit, 0),
        Correction::Refused { number } => found(2, 0, 0, number),
    }
}

// The correction that a tag and what comes with it tell.
fn correction(payload: &[u8]) -> Correction {
    let fvh = number(payload, 4);
    let bit = number(payload, 8);
    match number(payload, 0) {
        0 => Correction::Clean { fvh },
        1 => Correction::Repaired { fvh, bit },
        _ => Correction::Refused {
            number: number(payload, 12),
        },
    }
}

// A number as a word; those that are sent are words.
fn word(number: u32) -> u16 {
    (number % 65536) as u16
}

// timing::code_report.
fn code_report(payload: &[u8]) -> Numbers {
    Numbers::none().with_code_report(timing::code_report(correction(payload)))
}

// timing::fault.
fn fault(first: u32, fvh: u32) -> Numbers {
    match timing::fault(word(first), fvh) {
        Some(reason) => Numbers::one(reason.number()),
        None => Numbers::one(0),
    }
}

pub(crate) fn answered(kind: u32, first: u32, second: u32, payload: &[u8]) -> Numbers {
    match kind {
        1 => of_correction(timing::correct(word(first))),
        8 => Numbers::one(capture::fiskrogn_correct(first)),
        10 => Numbers::one(u32::from(timing::fourth(first))),
        11 => of_correction(timing::correct_expecting(word(first), second)),
        13 => fault(first, second),
        12 => code_report(payload),
        _ => Numbers::none(),
    }
}
