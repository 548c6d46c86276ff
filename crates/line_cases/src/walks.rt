// The crate system: walks, what they count, and the answers to a line.
use crate::dues::{at_walk, due_behind, place};
use cases::{Numbers, WALK, count, number, report};
use refusal::Refusal;
use system::{Judgement, PacketWords, Walk};

// The refusal behind a walk.
fn refusal(payload: &[u8]) -> Refusal {
    Refusal {
        number: number(payload, WALK),
        place: count(payload, WALK + 4),
    }
}

// system::repairs.
fn repairs(payload: &[u8]) -> Numbers {
    Numbers::one(system::repairs(report(payload, 0)))
}

// Walk::standing.
fn standing(walk: Walk, payload: &[u8]) -> Numbers {
    Numbers::of_result(walk.standing(place(payload, WALK), place(payload, WALK + 8)))
}

// Walk::moved.
fn moved(walk: Walk, payload: &[u8]) -> Numbers {
    Numbers::none().with_walk(walk.moved(due_behind(payload), report(payload, WALK + 20)))
}

// Judgement::refused.
fn refused(walk: Walk, payload: &[u8]) -> Numbers {
    Numbers::of_judgement(Judgement::refused(walk, refusal(payload)))
}

// The words of packets behind a walk, what is due and a report.
fn packets(payload: &[u8]) -> PacketWords {
    PacketWords {
        between: count(payload, WALK + 36),
        active: count(payload, WALK + 40),
    }
}

// Judgement::accepted.
fn accepted(walk: Walk, payload: &[u8]) -> Numbers {
    let due = due_behind(payload);
    let judgement = Judgement::accepted(walk, due, report(payload, WALK + 20), packets(payload));
    Numbers::of_judgement(judgement)
}

pub(crate) fn answered(kind: u32, walk: Walk, payload: &[u8]) -> Numbers {
    match kind {
        25 => repairs(payload),
        26 => Numbers::of_result(walk.refusal()),
        27 => moved(walk, payload),
        29 => standing(walk, payload),
        34 => at_walk(walk, payload),
        40 => refused(walk, payload),
        41 => accepted(walk, payload),
        _ => Numbers::none(),
    }
}
