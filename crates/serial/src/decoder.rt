// The decoder. Ten channel bits tell all that is held after them, so no word waits for another: each is decoded from a pair of words.
ghost use Rattle.std.specs.Prelude.{◌≡◌, ◌≤◌};
ghost use Rattle.serial.specs.Serial.{Past, decode_word, past_decoding};
ghost use Rattle.serial.specs.Calls.{short_delay, long_delay};
ghost use Rattle.serial.specs.Held.{past_held};

use crate::held::Held;
use crate::pass::Pass;
use crate::word::low_ten;

pub(crate) struct Decoder;

// Decodes the first word from what is held, and every other from the word before it.
impl Pass for Decoder {
    ghost word = { decode_word short_delay long_delay };

    ghost past = { past_decoding short_delay long_delay };

    fn run(held: Held, words: &[u16], out: &mut [u16]) -> Held {
        if words.is_empty() {
            return held;
        }
        out[0] = decode_word(held, words[0]);
        // By index: a turn reads two neighbours of one slice and writes a place of another.
        for i in 1..words.len() {
            out[i] = decode_word(settle(words[i - 1]), words[i]);
        }
        settle(words[words.len() - 1])
    }
}

// A channel bit xor the one before it is scrambled, and that xor the scrambled bits 5 and 9 earlier is plain: ten at once.
fn decode_word(held: Held, word: u16) -> u16
    requires { word ≤ 1023 }
    ensures { result ≡ decode_word short_delay long_delay (past_held held) word }
{
    let channel = u32::from(word);
    let scrambled = (channel ^ ((channel << 1) ^ held.last)) & 1023;
    let five_earlier = (scrambled << 5) ^ (held.scrambled >> 4);
    let nine_earlier = (scrambled << 9) ^ held.scrambled;
    low_ten(scrambled ^ (five_earlier ^ nine_earlier))
}

// What is held after a channel word, whatever came before it.
fn settle(word: u16) -> Held
    requires { word ≤ 1023 }
    ensures { (s : Past) → past_held result ≡ past_decoding short_delay long_delay s word }
{
    let channel = u32::from(word);
    Held {
        scrambled: ((channel ^ (channel << 1)) >> 1) & 511,
        last: channel >> 9,
    }
}
