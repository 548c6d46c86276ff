// The exact scan of a space, word by word.
ghost use Rattle.std.specs.Prelude.{◌≡◌, length};
ghost use Rattle.packets.specs.Fault.{word_at, space_told, space_to};

use crate::due::Holder;
use crate::fault::fault;
use refusal::Refused;
use words::FillWords;

// The first fault of the words from start on, or how many of them are packets.
pub(crate) fn scan(words: &[u16], start: usize, fill: FillWords) -> Result<usize, Refused>
    ensures { space_told result ≡ space_to (word_at words.now) start (length words.now) fill.even fill.odd }
{
    let mut holder = Holder { start, sum: 0 };
    // an offset is more than the place of a word here: what holds it is asked for by it
    for i in start..words.len() {
        if let Some(reason) = fault(holder.due(words, fill, i), words[i]) {
            return Err(reason.at(i));
        }
        holder = holder.next(words, i);
    }
    Ok(holder.start - start)
}
