// What an answer gives. Each call tells the offset after what it put: past the end where the answer has no room for it.
use crate::numbers::Numbers;

fn put_byte(answer: &mut [u8], at: usize, byte: u8) -> usize {
    if answer.len() <= at {
        return answer.len() + 1;
    }
    answer[at] = byte;
    at + 1
}

pub fn put_bytes(answer: &mut [u8], at: usize, bytes: &[u8]) -> usize {
    let mut next = at;
    for byte in bytes {
        next = put_byte(answer, next, *byte);
    }
    next
}

pub fn put_words(answer: &mut [u8], at: usize, words: &[u16]) -> usize {
    let mut next = at;
    for word in words {
        next = put_bytes(answer, next, &word.to_le_bytes());
    }
    next
}

pub fn put_numbers(answer: &mut [u8], numbers: Numbers) -> usize {
    let list = numbers.list;
    if list.len() < numbers.count {
        return answer.len() + 1;
    }
    let mut at = 0;
    for number in &list[..numbers.count] {
        at = put_bytes(answer, at, &number.to_le_bytes());
    }
    at
}
