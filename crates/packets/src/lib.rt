// Ancillary packets in a space of a line: what is due at each of its offsets, the first fault, and how many of its words are packets.
#![tactic(auto)]

mod due;
mod fault;
mod pass;
mod scan;

ghost use Rattle.std.specs.Prelude.{◌≡◌};
ghost use Rattle.packets.specs.Fault.{space_told, space_of};

use crate::pass::pass;
use crate::scan::scan;
pub use due::What;
use refusal::Refused;
use words::FillWords;

// Judges the space of a line from start to end, which ends with the words at the latest: packets one after another from its start, and this
// fill behind them. How many of its words are packets, or its first fault; places are offsets in the line.
pub fn judge_space(
    words: &[u16],
    start: usize,
    end: usize,
    fill: FillWords,
) -> Result<usize, Refused>
    ensures { space_told result ≡ space_of words.now start end fill.even fill.odd }
{
    let words = &words[..end.min(words.len())];
    match pass(words, start, fill) {
        Some(packets) => Ok(packets),
        None => scan(words, start, fill),
    }
}
