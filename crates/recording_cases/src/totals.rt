// The crate confirmation: sums over recordings.
use cases::{Numbers, count, number, wide};
use confirmation::{Outcome, Totals};

// The sums that six numbers of 64 bits tell.
fn totals(payload: &[u8]) -> Totals {
    Totals {
        files: wide(payload, 0),
        lines525: wide(payload, 8),
        lines625: wide(payload, 16),
        repairs: wide(payload, 24),
        refused: wide(payload, 32),
        unread: wide(payload, 40),
    }
}

// The outcome that the numbers behind the sums tell.
fn outcome(payload: &[u8]) -> Outcome {
    Outcome {
        system: number(payload, 48),
        start: number(payload, 52),
        lines: number(payload, 56),
        repairs: number(payload, 60),
        number: number(payload, 64),
        line: number(payload, 68),
        place: count(payload, 72),
    }
}

fn of_totals(totals: Totals) -> Numbers {
    Numbers::none()
        .with_wide(totals.files)
        .with_wide(totals.lines525)
        .with_wide(totals.lines625)
        .with_wide(totals.repairs)
        .with_wide(totals.refused)
        .with_wide(totals.unread)
}

// The bytes of what each kind brings.
fn size_of(kind: u32) -> usize {
    match kind {
        100 => 0,
        101 => 76,
        _ => 48,
    }
}

fn answered(kind: u32, before: Totals, outcome: Outcome) -> Numbers {
    match kind {
        100 => of_totals(Totals::none()),
        101 => of_totals(before.with_read(outcome)),
        102 => of_totals(before.with_unread()),
        103 => Numbers::none().with_wide(before.lines()),
        104 => Numbers::none().with_wide(before.hours()),
        _ => Numbers::none(),
    }
}

pub(crate) fn answer_case(kind: u32, payload: &[u8]) -> Numbers {
    if payload.len() != size_of(kind) {
        return Numbers::none();
    }
    answered(kind, totals(payload), outcome(payload))
}
