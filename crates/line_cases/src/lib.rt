// Cases of the calls on words: timing codes, systems and walks, what is due in a line, packets, judging, taking, writing, the serial form, and C's
// two calls.
#![tactic(auto)]

mod coding;
mod correction;
mod dues;
mod joining;
mod judging;
mod lines;
mod reasons;
mod slices;
mod spaces;
mod systems;
mod walks;
mod writing;

use cases::{Numbers, WALK, number, put_numbers, walk};
pub use coding::LONGEST;

// The bytes of what each kind of numbers brings.
fn size_of(kind: u32) -> usize {
    match kind {
        2 | 11 | 13 | 21 | 24 | 28 | 47 => 8,
        30 | 38 | 39 => 12,
        12 | 25 | 36 | 48 => 16,
        31 | 33 => 24,
        32 => 28,
        26 => WALK,
        34 => WALK + 4,
        40 => WALK + 8,
        29 => WALK + 16,
        27 => WALK + 36,
        41 => WALK + 44,
        _ => 4,
    }
}

// The calls on numbers.
fn on_numbers(kind: u32, payload: &[u8]) -> Numbers {
    if payload.len() != size_of(kind) {
        return Numbers::none();
    }
    let first = number(payload, 0);
    let second = number(payload, 4);
    match kind {
        2 | 20..=24 | 28 | 52 => systems::answered(kind, first, second),
        1..=13 => correction::answered(kind, first, second, payload),
        30..=33 | 35 => dues::answered(kind, payload),
        36 => joining::answered(first, second, payload),
        47 => reasons::answered(first, second),
        48 => spaces::fill_word(payload),
        38..=39 => systems::written(kind, first, second, number(payload, 8)),
        _ => walks::answered(kind, walk(payload, 0), payload),
    }
}

// The calls whose answers are numbers only: none where the case is none.
fn answered(kind: u32, payload: &[u8]) -> Numbers {
    match kind {
        9 => judging::capture_judge(payload),
        37 => judging::first_over(payload),
        42 => judging::judge(payload),
        49 => judging::all_samples(payload),
        50 => coding::fresh(payload),
        51 => spaces::judge(payload),
        _ => on_numbers(kind, payload),
    }
}

// Answers a case, and tells how many bytes the answer takes: 0 where the case is none, and more than there is room for where it does not fit.
pub fn answer_case(kind: u32, payload: &[u8], answer: &mut [u8]) -> usize {
    match kind {
        3 => lines::with_four(kind, WALK, payload, answer),
        4 | 45 | 46 => judging::lend(kind, payload, answer),
        5 => writing::with_six(kind, 12, payload, answer),
        6 | 7 => coding::code(kind == 7, payload, answer),
        43 => writing::with_six(kind, 20, payload, answer),
        44 => lines::with_four(kind, 20, payload, answer),
        _ => put_numbers(answer, answered(kind, payload)),
    }
}
