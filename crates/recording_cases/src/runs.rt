// The crate confirmation: runs.
use cases::{Numbers, WALK, count, number, report, walk};
use confirmation::{Followed, Outcome, Run};
use system::{Judgement, PacketWords};

// The bytes of the numbers that tell a run: system, start, its walk's, number and place.
pub(crate) const RUN: usize = WALK + 16;

// The run that the first numbers of these bytes tell.
pub(crate) fn run(payload: &[u8]) -> Run {
    Run {
        system: number(payload, 0),
        start: number(payload, 4),
        walk: walk(payload, 8),
        number: number(payload, WALK + 8),
        place: count(payload, WALK + 12),
    }
}

pub(crate) fn of_run(run: Run) -> Numbers {
    Numbers::one(run.system)
        .with(run.start)
        .with_walk(run.walk)
        .with(run.number)
        .with_place(run.place)
}

// Run::begin.
pub(crate) fn begin(payload: &[u8]) -> Numbers {
    if payload.len() < 4 {
        return Numbers::none();
    }
    of_run(Run::begin(&payload[4..]))
}

// Run::fresh.
pub(crate) fn fresh(payload: &[u8]) -> Numbers {
    if payload.len() != 8 {
        return Numbers::none();
    }
    of_run(Run::fresh(number(payload, 0), number(payload, 4)))
}

// The judgement that the numbers behind a run tell.
fn judgement(payload: &[u8]) -> Judgement {
    Judgement {
        number: number(payload, RUN),
        place: count(payload, RUN + 4),
        report: report(payload, RUN + 8),
        walk: walk(payload, RUN + 24),
        packets: PacketWords {
            between: count(payload, RUN + WALK + 24),
            active: count(payload, RUN + WALK + 28),
        },
    }
}

// Run::judged.
pub(crate) fn judged(payload: &[u8]) -> Numbers {
    if payload.len() != RUN + WALK + 32 {
        return Numbers::none();
    }
    let before: Run = run(payload);
    of_run(before.judged(judgement(payload)))
}

fn of_followed(followed: Followed) -> Numbers {
    of_run(followed.run).with_place(followed.taken)
}

// Run::follow, Run::next or Run::close, with these bytes.
fn with_bytes(kind: u32, before: Run, bytes: &[u8]) -> Numbers {
    match kind {
        92 => of_followed(before.follow(bytes)),
        93 => of_run(before.close(bytes)),
        _ => of_run(before.next(bytes)),
    }
}

pub(crate) fn follow(kind: u32, payload: &[u8]) -> Numbers {
    if payload.len() < RUN + 4 {
        return Numbers::none();
    }
    with_bytes(kind, run(payload), &payload[RUN + 4..])
}

fn of_outcome(outcome: Outcome) -> Numbers {
    Numbers::one(outcome.system)
        .with(outcome.start)
        .with(outcome.lines)
        .with(outcome.repairs)
        .with(outcome.number)
        .with(outcome.line)
        .with_place(outcome.place)
}

// Run::outcome.
pub(crate) fn outcome(payload: &[u8]) -> Numbers {
    if payload.len() != RUN {
        return Numbers::none();
    }
    let ended: Run = run(payload);
    of_outcome(ended.outcome())
}

// confirmation::follows_on.
pub(crate) fn follows_on(payload: &[u8]) -> Numbers {
    if payload.len() != 2 * RUN {
        return Numbers::none();
    }
    let follows = confirmation::follows_on(run(payload), run(&payload[RUN..]));
    Numbers::none().with_truth(follows)
}
