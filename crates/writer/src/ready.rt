// Ready packet words: what refuses them, and how they are laid into a line.
ghost use Rattle.std.specs.Prelude.{◌≡◌, ◌↔◌, IsTrue, ◌+◌, ◌≤◌, length};
ghost use Rattle.refusal.specs.Reasons.{answered};
ghost use Rattle.packets.specs.Fault.{ready_refusal};
ghost use Rattle.system.specs.declared.System.TheVariants.{Lines625};
ghost use Rattle.system.specs.Figures.{line_length};
ghost use Rattle.line.specs.Samples.{Samples, active_length, nothing_ready, bare_of, line_of};
ghost use Rattle.line.specs.Lengths.{active_room, room_refusal};
ghost use Rattle.line.specs.Fit.{Carried};
ghost use Rattle.writer.specs.Passes.{Laid, packets_in};
ghost use Rattle.writer.specs.Write.{packets_refusal};

use line::{ACTIVE_LENGTH, BETWEEN_OFFSET};
use packets::judge_space;
use refusal::{Reason, Refused};
use system::Due;
use words::{FillWords, MOST_WORD};

// No word is this one: where no packet starts in ready words, none is right.
const NO_WORD: u16 = MOST_WORD + 1;

// The ready packet words of a line, in the space between and in the active part.
#[derive(Clone, Copy)]
pub(crate) struct Ready<'a> {
    pub(crate) between: &'a [u16],
    pub(crate) active: &'a [u16],
}

impl Ready<'_> {
    // Whether a line is without packets, as most are. No call is made for those: that took a fiftieth of the time of writing a line.
    fn is_nothing(&self) -> bool
        ensures { IsTrue result ↔ packets_in self.now ≡ nothing_ready }
    {
        self.between.is_empty() && self.active.is_empty()
    }

    // All that refuses ready packet words: 3 at 4 and 5, then those of the space between, then those of the active part.
    #[tactic(auto, using(refusal::proofs::Results::err_first, refusal::proofs::Results::ok_first), unfolding(crate::specs::Write::packets_refusal))]
    pub(crate) fn refusal(&self, due: Due) -> Result<(), Refused>
        ensures { answered result ≡ packets_refusal due (packets_in self.now) }
    {
        if self.is_nothing() {
            return Ok(());
        }
        room_refusal(due, self.between.len(), self.active.len())?;
        ready_refusal(BETWEEN_OFFSET, self.between)?;
        ready_refusal(due.system.active_offset(), self.active)
    }

    // Lays the words of both spaces into a line that was written without them.
    pub(crate) fn lay(&self, due: Due, words: &mut [u16])
        requires { (length words.old ≡ line_length due.system) × Carried due (packets_in self.now) }
        ensures { (p : Samples) → words.old ≡ bare_of due p → words.new ≡ line_of due (record { samples = p; packets = packets_in self.now }) }
    {
        if self.is_nothing() {
            return;
        }
        lay(self.between, BETWEEN_OFFSET, words);
        lay(self.active, due.system.active_offset(), words);
    }
}

// How many ready words the active part holds: none where V is 0.
fn active_room(due: Due) -> usize
    ensures { (result ≡ active_room due) × (result ≤ active_length) }
{
    if due.v { ACTIVE_LENGTH } else { 0 }
}

// What is wrong with so many ready words for each space: 3 at 4 and 5.
#[tactic(auto, using(crate::proofs::Laws::room_between, crate::proofs::Laws::room_active, crate::proofs::Laws::room_accepted))]
fn room_refusal(due: Due, between: usize, active: usize) -> Result<(), Refused>
    ensures { answered result ≡ room_refusal due between active }
{
    if due.system.sav_offset() - BETWEEN_OFFSET < between {
        return Err(Reason::WrongLength.at(4));
    }
    if active_room(due) < active {
        return Err(Reason::WrongLength.at(5));
    }
    Ok(())
}

// What is wrong with the ready words of the space that starts at an offset, judged as a space of just their length.
fn ready_refusal(start: usize, ready: &[u16]) -> Result<(), Refused>
    requires { (start ≤ line_length Lines625) × (length ready.now ≤ active_length) }
    ensures { answered result ≡ ready_refusal start ready.now }
{
    let none = FillWords {
        even: NO_WORD,
        odd: NO_WORD,
    };
    match judge_space(ready, 0, ready.len(), none) {
        Ok(_) => Ok(()),
        Err(refused) => Err(refused.reason.at(start + refused.place)),
    }
}

// Lays words into others, from an offset on. By index: copy_from_slice calls memmove, which no archive for C asked for, and of a zip of two
// slices the proof did not close.
pub(crate) fn lay(ready: &[u16], from: usize, words: &mut [u16])
    requires { from + length ready.now ≤ length words.old }
    ensures { Laid ready.now from words.old words.new }
{
    for k in 0..ready.len() {
        words[from + k] = ready[k];
    }
}
