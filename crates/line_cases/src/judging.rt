// The crate reader: judging a line, its active part and its packets; judging as C calls it; and the search for a word over 1023.
use cases::{
    MOST_BYTES, MOST_WORDS, Numbers, WALK, after_bytes, after_words, part, put_numbers, put_words,
    taken_words, walk,
};
use system::Walk;

// reader::active, reader::between_packets, or reader::active_packets.
fn lent(kind: u32, walk: Walk, words: &[u16]) -> &[u16] {
    match kind {
        4 => reader::active(walk, words),
        45 => reader::between_packets(walk, words),
        _ => reader::active_packets(walk, words),
    }
}

fn put_lent(answer: &mut [u8], kind: u32, walk: Walk, words: &mut [u16]) -> usize {
    let part = lent(kind, walk, words);
    let at_part = put_numbers(answer, Numbers::none().with_place(part.len()));
    put_words(answer, at_part, part)
}

fn judged(walk: Walk, words: &mut [u16]) -> Numbers {
    Numbers::of_judgement(reader::judge(walk, words))
}

// The words that are the whole payload behind their count, by way of room for them: none where it is another's.
fn whole<'a>(payload: &[u8], room: &'a mut [u16]) -> Option<&'a mut [u16]> {
    if after_words(payload, MOST_WORDS, 0, 4) != payload.len() {
        return None;
    }
    Some(taken_words(payload, 0, 4, room))
}

// words::first_over.
pub(crate) fn first_over(payload: &[u8]) -> Numbers {
    match whole(payload, &mut [0; MOST_WORDS]) {
        Some(words) => Numbers::of_result(words::first_over(words)),
        None => Numbers::none(),
    }
}

// words::all_samples.
pub(crate) fn all_samples(payload: &[u8]) -> Numbers {
    match whole(payload, &mut [0; MOST_WORDS]) {
        Some(words) => Numbers::none().with_truth(words::all_samples(words)),
        None => Numbers::none(),
    }
}

// reader::judge.
pub(crate) fn judge(payload: &[u8]) -> Numbers {
    let mut words = [0u16; MOST_WORDS];
    if after_words(payload, MOST_WORDS, WALK, WALK + 4) != payload.len() {
        return Numbers::none();
    }
    judged(
        walk(payload, 0),
        taken_words(payload, WALK, WALK + 4, &mut words),
    )
}

// A part of a line, by its kind.
pub(crate) fn lend(kind: u32, payload: &[u8], answer: &mut [u8]) -> usize {
    let mut words = [0u16; MOST_WORDS];
    if after_words(payload, MOST_WORDS, WALK, WALK + 4) != payload.len() {
        return 0;
    }
    put_lent(
        answer,
        kind,
        walk(payload, 0),
        taken_words(payload, WALK, WALK + 4, &mut words),
    )
}

fn judged_in_c(walk: Walk, bytes: &[u8]) -> u32 {
    capture::fiskrogn_judge(
        walk.system,
        walk.line,
        walk.lines,
        walk.repairs,
        walk.fallen,
        walk.tally,
        bytes,
    )
}

// capture::fiskrogn_judge.
pub(crate) fn capture_judge(payload: &[u8]) -> Numbers {
    let end = after_bytes(payload, MOST_BYTES, WALK, WALK + 4);
    if payload.len() != end {
        return Numbers::none();
    }
    Numbers::one(judged_in_c(walk(payload, 0), part(payload, WALK + 4, end)))
}
