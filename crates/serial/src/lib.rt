// The serial coder and decoder. They work on whole words: the bits of a word are told by shifts and exclusive ors.
#![tactic(auto)]

mod coder;
mod decoder;
mod held;
mod pass;
mod word;

ghost use Rattle.std.specs.Prelude.{◌≡◌};
ghost use Rattle.refusal.specs.Reasons.{answered};
ghost use Rattle.serial.specs.Calls.{fresh_state, serial_refusal, told, code_answer, code_output, decode_answer, decode_output};
ghost use Rattle.serial.specs.Held.{run_answer, run_output};

use crate::coder::Coder;
use crate::decoder::Decoder;
use crate::held::Held;
use crate::pass::Pass;
use refusal::{Reason, Refused};

// The most words of one call.
const MOST_WORDS: usize = 65536;

// The last nine scrambled bits, the newest lowest, and the last channel bit.
#[derive(Clone, Copy, Debug, Default, PartialEq, Eq)]
pub struct State {
    pub scrambled: u32,
    pub last: u32,
}

// What a refused call hands back: the refusal, and the state as given.
#[derive(Clone, Copy, Debug, PartialEq, Eq)]
pub struct Returned {
    pub refused: Refused,
    pub state: State,
}

impl State {
    // The state before the first word.
    pub fn fresh() -> State
        ensures { result ≡ fresh_state }
    {
        State::default()
    }
}

// Scrambles words into an output of equal length: 13, then 3, then 5 at the first word over 1023. It answers the state after the words.
#[tactic(auto, unfolding(crate::specs::Calls::code_answer, crate::specs::Calls::code_output))]
pub fn code(state: State, words: &[u16], out: &mut [u16]) -> Result<State, Returned>
    ensures answer { told result ≡ code_answer state words.now out.old }
    ensures output { out.new ≡ code_output state words.now out.old }
{
    run_words::<Coder>(state, words, out)
}

// Undoes code: the same refusals, and from the same state the words that were coded.
#[tactic(auto, unfolding(crate::specs::Calls::decode_answer, crate::specs::Calls::decode_output))]
pub fn decode(state: State, words: &[u16], out: &mut [u16]) -> Result<State, Returned>
    ensures answer { told result ≡ decode_answer state words.now out.old }
    ensures output { out.new ≡ decode_output state words.now out.old }
{
    run_words::<Decoder>(state, words, out)
}

// A call of either: a refused one hands the state back and stores nothing.
fn run_words<P: Pass>(state: State, words: &[u16], out: &mut [u16]) -> Result<State, Returned>
    ensures answer { told result ≡ run_answer P.word P.past state words.now out.old }
    ensures output { out.new ≡ run_output P.word P.past state words.now out.old }
{
    if let Err(refused) = serial_refusal(state, words, out.len()) {
        return Err(Returned { refused, state });
    }
    let after = P::run(Held::of(state), words, out);
    Ok(after.state())
}

// What a call with an output of this length is refused for, in the document's order.
#[tactic(auto, using(crate::proofs::Refusals::over_alone), unfolding(crate::specs::Calls::serial_refusal, refusal::specs::Answer::or_else))]
fn serial_refusal(state: State, words: &[u16], room: usize) -> Result<(), Refused>
    ensures { answered result ≡ serial_refusal state words.now room }
{
    if state.scrambled > 511 || state.last > 1 {
        return Err(Reason::BadState.at(0));
    }
    if words.len() > MOST_WORDS {
        return Err(Reason::WrongLength.at(0));
    }
    if room != words.len() {
        return Err(Reason::WrongLength.at(1));
    }
    words::first_over(words)
}
