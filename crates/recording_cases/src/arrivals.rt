// The crate intake: what a read tells, and how a buffer is filled.
use cases::{Numbers, number, wide};
use intake::{Filled, Told};

// The same 64 bits as a signed number.
fn signed(bits: u64) -> isize {
    if bits < 9223372036854775808 {
        return bits as isize;
    }
    !((18446744073709551615 - bits) as isize)
}

fn tagged(tag: u32, count: usize) -> Numbers {
    Numbers::one(tag).with_wide(count as u64)
}

// A tag, and the count that comes with it.
fn of_told(told: Told) -> Numbers {
    match told {
        Told::Failed => tagged(0, 0),
        Told::Ended => tagged(1, 0),
        Told::Bytes { count } => tagged(2, count),
    }
}

// What a tag and a count tell.
fn told(tag: u32, count: usize) -> Told {
    match tag {
        0 => Told::Failed,
        1 => Told::Ended,
        _ => Told::Bytes { count },
    }
}

// intake::tells, of a count and room for the bytes.
pub(crate) fn tells(payload: &[u8]) -> Numbers {
    if payload.len() < 12 {
        return Numbers::none();
    }
    of_told(intake::tells(signed(wide(payload, 0)), &payload[12..]))
}

fn of_filled(filled: Filled) -> Numbers {
    Numbers::none()
        .with_wide(filled.have as u64)
        .with_truth(filled.done)
        .with_truth(filled.failed)
}

// Filled::so_far.
pub(crate) fn so_far(payload: &[u8]) -> Numbers {
    if payload.len() != 8 {
        return Numbers::none();
    }
    of_filled(Filled::so_far(wide(payload, 0) as usize))
}

// What was filled, as the first numbers tell it.
fn filled(payload: &[u8]) -> Filled {
    Filled {
        have: wide(payload, 0) as usize,
        done: number(payload, 8) == 1,
        failed: number(payload, 12) == 1,
    }
}

// Filled::after.
pub(crate) fn after(payload: &[u8]) -> Numbers {
    if payload.len() != 36 {
        return Numbers::none();
    }
    let before: Filled = filled(payload);
    let read = told(number(payload, 16), wide(payload, 20) as usize);
    of_filled(before.after(read, wide(payload, 28) as usize))
}
