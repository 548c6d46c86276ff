// The state as it is held between words, in the order of a word's bits.
ghost use Rattle.std.specs.Prelude.{◌≡◌, ◌≤◌, reverse};
ghost use Rattle.serial.specs.Bits.{bits, num};

use crate::State;

// The last nine scrambled bits, the earliest lowest, and the last channel bit.
#[derive(Clone, Copy)]
pub(crate) struct Held {
    pub(crate) scrambled: u32,
    pub(crate) last: u32,
    ghost nine: { scrambled ≤ 511 },
    ghost one: { last ≤ 1 },
}

impl Held {
    ghost use Rattle.serial.specs.Calls.{past_of, state_of};
    ghost use Rattle.serial.specs.Held.{past_held};

    // What is held of a state as given.
    pub(crate) fn of(state: State) -> Held
        requires { state.last ≤ 1 }
        ensures { past_held result ≡ past_of state }
    {
        Held {
            scrambled: flip(state.scrambled),
            last: state.last,
        }
    }

    // The state to hand back.
    pub(crate) fn state(self) -> State
        ensures { result ≡ state_of (past_held self) }
    {
        State {
            scrambled: flip(self.scrambled),
            last: self.last,
        }
    }
}

// Nine bits the other way round.
fn flip(nine: u32) -> u32
    ensures { result ≡ num (reverse (bits 9 nine)) }
{
    nine.reverse_bits() >> 23
}
