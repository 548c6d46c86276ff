// The crates bytewise, words and v210: words and bytes, and samples and rows.
use cases::{
    MOST_BYTES, MOST_WORDS, Numbers, WALK, after_bytes, after_words, part, put_bytes, put_numbers,
    put_words, taken_bytes, taken_words, walk,
};
use refusal::Refused;

// bytewise::judge.
pub(crate) fn judge(payload: &[u8]) -> Numbers {
    let end = after_bytes(payload, MOST_BYTES, WALK, WALK + 4);
    if payload.len() != end {
        return Numbers::none();
    }
    let judgement = bytewise::judge(walk(payload, 0), part(payload, WALK + 4, end));
    Numbers::of_judgement(judgement)
}

// So many bytes, then words.
fn fill_words<F: FnOnce(&[u8], &mut [u16]) -> Result<(), Refused>>(
    call: F,
    bytes: &[u8],
    words: &mut [u16],
    answer: &mut [u8],
) -> usize
    requires { F.IsAlwaysCallable call }
{
    let result = call(bytes, words);
    let at_words = put_numbers(answer, Numbers::of_result(result));
    put_words(answer, at_words, words)
}

// A call that takes words from bytes: v210::unpack, or words::to_words.
pub(crate) fn with_room_for_words<F: FnOnce(&[u8], &mut [u16]) -> Result<(), Refused>>(
    call: F,
    payload: &[u8],
    answer: &mut [u8],
) -> usize
    requires { F.IsAlwaysCallable call }
{
    let mut words = [0u16; MOST_WORDS];
    let at_words = after_bytes(payload, MOST_BYTES, 0, 8);
    if after_words(payload, MOST_WORDS, 4, at_words) != payload.len() {
        return 0;
    }
    fill_words(
        call,
        part(payload, 8, at_words),
        taken_words(payload, 4, at_words, &mut words),
        answer,
    )
}

// Words, then bytes.
fn fill_bytes<F: FnOnce(&[u16], &mut [u8]) -> Result<(), Refused>>(
    call: F,
    words: &[u16],
    bytes: &mut [u8],
    answer: &mut [u8],
) -> usize
    requires { F.IsAlwaysCallable call }
{
    let result = call(words, bytes);
    let put_at = put_numbers(answer, Numbers::of_result(result));
    put_bytes(answer, put_at, bytes)
}

// A call that gives words as bytes: v210::pack, or words::to_bytes.
pub(crate) fn with_room_for_bytes<F: FnOnce(&[u16], &mut [u8]) -> Result<(), Refused>>(
    call: F,
    payload: &[u8],
    answer: &mut [u8],
) -> usize
    requires { F.IsAlwaysCallable call }
{
    let mut words = [0u16; MOST_WORDS];
    let mut bytes = [0u8; MOST_BYTES];
    let at_bytes = after_words(payload, MOST_WORDS, 0, 8);
    if after_bytes(payload, MOST_BYTES, 4, at_bytes) != payload.len() {
        return 0;
    }
    fill_bytes(
        call,
        taken_words(payload, 0, 8, &mut words),
        taken_bytes(payload, 4, at_bytes, &mut bytes),
        answer,
    )
}
