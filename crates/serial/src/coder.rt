// The coder. Each word waits for what is held after the one before, so that is kept to few steps: the scrambled bits do not wait for
// the channel bit.
ghost use Rattle.std.specs.Prelude.{◌≡◌, ◌≤◌};
ghost use Rattle.serial.specs.Serial.{code_word, past_coding};
ghost use Rattle.serial.specs.Calls.{short_delay, long_delay};
ghost use Rattle.serial.specs.Held.{past_held};

use crate::held::Held;
use crate::pass::Pass;
use crate::word::low_ten;

pub(crate) struct Coder;

// A channel word, and what is held after it.
#[derive(Clone, Copy)]
struct Coded {
    word: u16,
    after: Held,
}

// Codes the words in turn, each from what the one before left.
impl Pass for Coder {
    ghost word = { code_word short_delay long_delay };

    ghost past = { past_coding short_delay long_delay };

    fn run(mut held: Held, words: &[u16], out: &mut [u16]) -> Held {
        for (i, word) in words.iter().enumerate() {
            let coded = code_word(held, *word);
            out[i] = coded.word;
            held = coded.after;
        }
        held
    }
}

// Scrambles ten bits at once: for the low five both earlier bits are held, and for the high five those not held are among the low five.
// A channel bit is the last one before the word xor all scrambled bits up to its own, gathered by two, four, eight and sixteen.
fn code_word(held: Held, word: u16) -> Coded
    requires { word ≤ 1023 }
    ensures word { result.word ≡ code_word short_delay long_delay (past_held held) word }
    ensures past { past_held result.after ≡ past_coding short_delay long_delay (past_held held) word }
{
    let plain = u32::from(word);
    let earlier = (held.scrambled >> 4) ^ held.scrambled;
    let low_five = plain ^ earlier;
    let scrambled = (plain ^ (((low_five << 5) ^ (low_five << 9)) ^ earlier)) & 1023;
    let by_two = scrambled ^ (scrambled << 1);
    let by_four = by_two ^ (by_two << 2);
    let by_eight = by_four ^ (by_four << 4);
    let channel = ((by_eight ^ (by_eight << 8)) ^ (held.last * 1023)) & 1023;
    Coded {
        word: low_ten(channel),
        after: Held {
            scrambled: scrambled >> 1,
            last: channel >> 9,
        },
    }
}
