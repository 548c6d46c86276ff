// What is done with the words of a call: they are coded, or decoded.
ghost use Rattle.std.specs.Prelude.{◌≡◌, ℕ};
ghost use Rattle.serial.specs.Serial.{Past, outs, ends};
ghost use Rattle.serial.specs.Held.{past_held, Ready};

use crate::held::Held;

pub(crate) trait Pass {
    // the word that comes out of a word, and the past after it
    ghost word: { Past → ℕ → ℕ };

    ghost past: { Past → ℕ → Past };

    // Takes the words in turn, and gives what is held after them.
    fn run(held: Held, words: &[u16], out: &mut [u16]) -> Held
        requires { Ready words.now out.old }
        ensures output { out.new ≡ outs word past (past_held held) words.now }
        ensures after { past_held result ≡ ends word past (past_held held) words.now };
}
