// A quick pass over a space, which only says that nothing is wrong: no branch leaves its long loops, so that they run on vectors. Which fault
// comes first, where there is one, is the scan's to say. The words of the line are given as far as its space goes.
ghost use Rattle.std.specs.Prelude.{◌≡◌, true, IfSome, ℕ, ◌+◌, ◌*◌, ◌/◌, ◌%◌, ◌<◌, ◌≤◌, length, get_or};
ghost use Rattle.packets.specs.Packet.{fill_word, sum_of};
ghost use Rattle.packets.specs.Fault.{word_at};
ghost use Rattle.words.specs.Passes.{Filled};
ghost use Rattle.packets.specs.Passes.{PacketWell, Passed};

use crate::due::{LEAST_SIZE, size, starts};
use crate::fault::{header_well, low, nine_bits};
use words::{FillWords, MOST_WORD, all_samples, pair_of};

// Whether each pair of words is these two.
fn pairs_filled(words: &[u16], first: u16, second: u16) -> bool
    ensures { result ≡ true → Filled first second (λ k. get_or words.now k 0) (length words.now / 2) }
{
    let due = pair_of(first, second);
    let mut well = true;
    for k in 0..words.len() / 2 {
        well = well & (pair_of(words[2 * k], words[2 * k + 1]) == due);
    }
    well
}

// Whether the words from an offset on are fill.
fn filled(words: &[u16], from: usize, fill: FillWords) -> bool
    requires { from ≤ length words.now }
    ensures { result ≡ true → (i : ℕ) → from ≤ i → i < length words.now → word_at words.now i ≡ fill_word fill.even fill.odd i }
{
    let first = fill.at(from);
    let second = fill.at(from + 1);
    if (words.len() - from) % 2 == 1 && words[words.len() - 1] != first {
        return false;
    }
    pairs_filled(&words[from..], first, second)
}

// The sum of the low nine bits of words, at most as many as a packet has.
fn sum_of(words: &[u16]) -> u32
    requires { length words.now ≤ 258 }
    ensures { result ≡ sum_of words.now }
{
    words.iter().map(|word| u32::from(*word % 512)).sum()
}

// Whether the packet that starts at an offset is well: identifiers and count, user words that fit, and the checksum.
fn packet_well(words: &[u16], p: usize) -> bool
    requires { p + 6 < length words.now }
    ensures { result ≡ true → PacketWell (word_at words.now) (length words.now) p }
{
    let count = low(words[p + 5]);
    if words.len() - (p + LEAST_SIZE) < count {
        return false;
    }
    let checksum = p + 6 + count;
    let sum = sum_of(&words[p + 3..checksum]);
    header_well(words[p + 3])
        & header_well(words[p + 4])
        & header_well(words[p + 5])
        & all_samples(&words[p + 6..checksum])
        & (words[checksum] == nine_bits((sum % 512) as u16))
}

// The pass: packets one after another, each well, and fill behind them. How many words are packets, where all is well.
pub(crate) fn pass(words: &[u16], start: usize, fill: FillWords) -> Option<usize>
    ensures { IfSome result (Passed (word_at words.now) start (length words.now) fill.even fill.odd) }
{
    if words.len() < start {
        return None;
    }
    if MOST_WORD < fill.even || MOST_WORD < fill.odd {
        return None;
    }
    let mut p = start;
    while starts(words, p) {
        if !packet_well(words, p) {
            return None;
        }
        p = p + size(words, p);
    }
    filled(words, p, fill).then_some(p - start)
}
