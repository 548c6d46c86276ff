// The index and the trailer that end a finished file, and what is answered from them: whether lines a to b are all clean.
#![tactic(auto)]

mod entry;
mod question;
mod room;
mod trailer;

ghost use Rattle.std.specs.Prelude.{◌≡◌};
ghost use Rattle.index.specs.Parts.{asked_told, answer_of};

pub use entry::{ENTRY_LENGTH, Entry};
pub use question::Question;
use refusal::Refused;
pub use trailer::{TRAILER_LENGTH, Trailer};

// Whether lines a to b, ordinals from 0 and both included, are all clean, from a file's trailer, its index and its length: 1, 2, then 19 for
// parts that do not fit and an index that is none, then 20 for lines that the file has not.
#[tactic(auto, using(crate::proofs::Answers::steps_whole))]
pub fn ask(
    system: u32,
    start: u32,
    trailer: &[u8],
    index: &[u8],
    length: u64,
    a: u32,
    b: u32,
) -> Result<bool, Refused>
    ensures { asked_told result ≡ answer_of system start trailer.now index.now length a b }
{
    let question = Question::begin(system, start, trailer, length, a, b);
    question.feed(index).close()
}
