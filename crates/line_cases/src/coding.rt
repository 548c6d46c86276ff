// The crate serial.
use cases::{Numbers, after_words, number, put_numbers, put_words, taken_words};
use refusal::Refusal;
use serial::{Returned, State};

// The longest slice that is coded: a little over the limit of the coder.
pub const LONGEST: usize = 65_540;

// State::fresh.
pub(crate) fn fresh(payload: &[u8]) -> Numbers {
    if payload.len() != 0 {
        return Numbers::none();
    }
    let state = State::fresh();
    Numbers::one(state.scrambled).with(state.last)
}

// The state that the first numbers tell.
fn state(payload: &[u8]) -> State {
    State {
        scrambled: number(payload, 0),
        last: number(payload, 4),
    }
}

fn of_coded(coded: Result<State, Returned>) -> Numbers {
    let (answer, state) = match coded {
        Ok(after) => (Refusal::NONE, after),
        Err(returned) => (Refusal::from(returned.refused), returned.state),
    };
    Numbers::one(answer.number)
        .with_place(answer.place)
        .with(state.scrambled)
        .with(state.last)
}

// serial::code or serial::decode, on slices of the lengths that the payload tells.
fn code_words(
    is_decoding: bool,
    state: State,
    words: &mut [u16],
    out: &mut [u16],
    answer: &mut [u8],
) -> usize {
    let coded = if is_decoding {
        serial::decode(state, words, out)
    } else {
        serial::code(state, words, out)
    };
    let put_out = put_numbers(answer, of_coded(coded));
    put_words(answer, put_out, out)
}

// serial::code, or serial::decode.
pub(crate) fn code(is_decoding: bool, payload: &[u8], answer: &mut [u8]) -> usize {
    let mut words = [0u16; LONGEST];
    let mut out = [0u16; LONGEST];
    let at_out = after_words(payload, LONGEST, 8, 16);
    if after_words(payload, LONGEST, 12, at_out) != payload.len() {
        return 0;
    }
    code_words(
        is_decoding,
        state(payload),
        taken_words(payload, 8, 16, &mut words),
        taken_words(payload, 12, at_out, &mut out),
        answer,
    )
}
