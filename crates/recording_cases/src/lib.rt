// Cases of the calls on bytes: words as bytes, rows, recording and extracting lines, confirming, sums over recordings, how bytes arrive, the
// packets file, and finished files.
#![tactic(auto)]

mod arrivals;
mod bytes;
mod extractors;
mod finishes;
mod heads;
mod questions;
mod recorders;
mod runs;
mod tapes;
mod totals;
mod walks;

use cases::{Numbers, WALK, put_numbers};

// Runs.
fn answered_run(kind: u32, payload: &[u8]) -> Numbers {
    match kind {
        91 => runs::begin(payload),
        94 => runs::outcome(payload),
        95 => runs::follows_on(payload),
        _ => runs::follow(kind, payload),
    }
}

// Finished files, and the runs over their lines.
fn answered_finish(kind: u32, payload: &[u8]) -> Numbers {
    match kind {
        140..=149 => questions::answer_case(kind, payload),
        150..=159 => finishes::answer_case(kind, payload),
        160 => runs::fresh(payload),
        161 => runs::judged(payload),
        _ => Numbers::none(),
    }
}

// Tapes, how bytes arrive, and the packets file.
fn answered_step(kind: u32, payload: &[u8]) -> Numbers {
    match kind {
        110 => tapes::begin(payload),
        111..=113 => tapes::asked(kind, payload),
        120 => arrivals::tells(payload),
        121 => arrivals::so_far(payload),
        122 => arrivals::after(payload),
        130 => heads::judge(payload),
        _ => answered_finish(kind, payload),
    }
}

// The cases whose answers are numbers only: none where the case is none.
fn answered(kind: u32, payload: &[u8]) -> Numbers {
    match kind {
        60 => bytes::judge(payload),
        82..=85 | 90 => walks::answer_case(kind, payload),
        91..=96 => answered_run(kind, payload),
        100..=104 => totals::answer_case(kind, payload),
        _ => answered_step(kind, payload),
    }
}

// Answers a case, and tells how many bytes the answer takes: 0 where the case is none, and more than there is room for where it does not fit.
pub fn answer_case(kind: u32, payload: &[u8], answer: &mut [u8]) -> usize {
    match kind {
        61 => bytes::with_room_for_words(words::to_words, payload, answer),
        62 => bytes::with_room_for_bytes(words::to_bytes, payload, answer),
        70 => bytes::with_room_for_words(v210::unpack, payload, answer),
        71 => bytes::with_room_for_bytes(v210::pack, payload, answer),
        80 => recorders::with_room(kind, WALK + 4, payload, answer),
        81 => extractors::with_room(kind, WALK, payload, answer),
        86 => extractors::with_room(kind, runs::RUN, payload, answer),
        114 => recorders::with_room(kind, tapes::TAPE, payload, answer),
        131 => heads::with_room(payload, answer),
        141 => questions::with_room(kind, 8, payload, answer),
        143 => questions::with_room(kind, 16, payload, answer),
        151 => finishes::with_room(payload, answer),
        _ => put_numbers(answer, answered(kind, payload)),
    }
}
