// What a payload brings.
use system::Walk;
use timing::{CodeReport, Report};

// The bytes at an offset, as many as are wanted: none where the payload is too short for them.
fn bytes_at<const N: usize>(payload: &[u8], at: usize) -> [u8; N] {
    match payload.get(at..).and_then(|rest| rest.first_chunk()) {
        Some(bytes) => *bytes,
        None => [0; N],
    }
}

// The number at an offset: 0 where the payload is too short for it.
pub fn number(payload: &[u8], at: usize) -> u32 {
    u32::from_le_bytes(bytes_at(payload, at))
}

// The number at an offset, where it counts what a slice holds.
pub fn count(payload: &[u8], at: usize) -> usize {
    number(payload, at) as usize
}

// The number of 64 bits at an offset, the lower half first: 0 where the payload is too short for it.
pub fn wide(payload: &[u8], at: usize) -> u64 {
    u64::from_le_bytes(bytes_at(payload, at))
}

// The number so many numbers behind an offset.
fn next(payload: &[u8], at: usize, numbers: u8) -> u32 {
    number(payload, at.wrapping_add(4 * usize::from(numbers)))
}

// The bytes of the numbers that tell a walk.
pub const WALK: usize = 24;

// The walk that six numbers tell.
pub fn walk(payload: &[u8], at: usize) -> Walk {
    Walk::of(
        number(payload, at),
        next(payload, at, 1),
        next(payload, at, 2),
        next(payload, at, 3),
        next(payload, at, 4),
        next(payload, at, 5),
    )
}

// A code's report, from whether it was repaired, 1, and the bit.
fn code_report(is_repaired: u32, bit: u32) -> CodeReport {
    if is_repaired == 1 {
        return CodeReport::Repaired { bit };
    }
    CodeReport::Clean
}

// The report that four numbers tell.
pub fn report(payload: &[u8], at: usize) -> Report {
    Report {
        eav: code_report(number(payload, at), next(payload, at, 1)),
        sav: code_report(next(payload, at, 2), next(payload, at, 3)),
    }
}

// The byte at an offset: 0 past the end.
fn byte(payload: &[u8], at: usize) -> u8 {
    payload.get(at).copied().unwrap_or(0)
}

// The offset behind a byte: one past the end stays there.
fn behind(payload: &[u8], at: usize) -> usize {
    if payload.len() <= at {
        return payload.len() + 1;
    }
    at + 1
}

// Takes a slice of words from an offset on: 0 for each byte that the payload is too short for.
fn take_words(payload: &[u8], at: usize, words: &mut [u16]) {
    let mut next = at;
    for word in words.iter_mut() {
        let high = behind(payload, next);
        *word = u16::from_le_bytes([byte(payload, next), byte(payload, high)]);
        next = behind(payload, high);
    }
}

// Takes a slice of bytes in the same way.
fn take_bytes(payload: &[u8], at: usize, bytes: &mut [u8]) {
    let mut next = at;
    for taken in bytes.iter_mut() {
        *taken = byte(payload, next);
        next = behind(payload, next);
    }
}

// The offset behind a slice whose count stands at another, of elements of this size: past the end where there are more than the most.
fn after(payload: &[u8], most: usize, size: usize, at_count: usize, at: usize) -> usize {
    let taken = count(payload, at_count);
    if most < taken {
        return payload.len() + 1;
    }
    at.wrapping_add(taken.wrapping_mul(size))
}

// The offset behind a slice of words.
pub fn after_words(payload: &[u8], most: usize, at_count: usize, at: usize) -> usize {
    after(payload, most, 2, at_count, at)
}

// The same of bytes.
pub fn after_bytes(payload: &[u8], most: usize, at_count: usize, at: usize) -> usize {
    after(payload, most, 1, at_count, at)
}

// The bytes from one offset to another: none where the payload does not have them.
pub fn part(payload: &[u8], from: usize, to: usize) -> &[u8] {
    payload.get(from..to).unwrap_or(&payload[..0])
}

// The first of a slice, so many: none where it has fewer.
fn first<T>(room: &mut [T], wanted: usize) -> &mut [T] {
    let most = if room.len() < wanted { 0 } else { wanted };
    &mut room[..most]
}

fn filled_words<'a>(payload: &[u8], at: usize, words: &'a mut [u16]) -> &'a mut [u16] {
    take_words(payload, at, words);
    words
}

fn filled_bytes<'a>(payload: &[u8], at: usize, bytes: &'a mut [u8]) -> &'a mut [u8] {
    take_bytes(payload, at, bytes);
    bytes
}

// The slice of words at an offset, of which there are as many as stand at another, by way of room for them.
pub fn taken_words<'a>(
    payload: &[u8],
    at_count: usize,
    at: usize,
    room: &'a mut [u16],
) -> &'a mut [u16] {
    filled_words(payload, at, first(room, count(payload, at_count)))
}

// The same of bytes.
pub fn taken_bytes<'a>(
    payload: &[u8],
    at_count: usize,
    at: usize,
    room: &'a mut [u8],
) -> &'a mut [u8] {
    filled_bytes(payload, at, first(room, count(payload, at_count)))
}
