// Programmes in and out of recordings, a line at a time: v210 rows into lines as bytes, and back.
#![tactic(auto)]

mod extractor;
mod recorder;
mod tape;

ghost use Rattle.std.specs.Prelude.{◌≡◌};
ghost use Rattle.programme.specs.Record.{due_at_walk, takes_row, ends_frame, ends_piece, frames_lines, piece_lines};

pub use extractor::{Extraction, extract, extract_next};
pub use recorder::record;
use system::{Due, System, Walk, system_of};
pub use tape::Tape;

// What is due in the line that a walk awaits, where it is written and V of the first field falls at this line.
pub(crate) fn due_at(walk: Walk, fall: u32) -> Due
    ensures { result ≡ due_at_walk fall walk }
{
    Due::of(system_of(walk.system), walk.line, fall)
}

// Whether the line that a walk awaits takes a row where it is written: its V is 0.
#[tactic(auto, unfolding(crate::specs::Record::takes_row))]
pub fn takes_row(walk: Walk, fall: u32) -> bool
    ensures { result ≡ takes_row fall walk }
{
    !due_at(walk, fall).v
}

// Whether, after the last row, the line that a walk awaits belongs to a frame that has begun: a line was written, this one's V is 1, and it
// is not line 1.
#[tactic(auto, unfolding(crate::specs::Record::ends_frame))]
pub fn ends_frame(walk: Walk, fall: u32) -> bool
    ensures { result ≡ ends_frame fall walk }
{
    0 < walk.lines && 1 < walk.line && !takes_row(walk, fall)
}

// The lines of so many frames.
fn frames_lines(system: System, frames: u32) -> u64
    ensures { result ≡ frames_lines system frames }
{
    u64::from(system.line_count()) * u64::from(frames)
}

// The most lines of a recording that is to have so many frames at most: no more than any recording may have.
#[tactic(auto, unfolding(crate::specs::Record::piece_lines))]
pub fn piece_lines(system: u32, frames: u32) -> u32
    ensures { result ≡ piece_lines system frames }
{
    frames_lines(system_of(system), frames).min(u64::from(Walk::MOST_LINES)) as u32
}

// Whether a recording of at most so many lines ends before the line that a walk awaits: that is line 1, and the frame has no room.
#[tactic(auto, unfolding(crate::specs::Record::ends_piece))]
pub fn ends_piece(walk: Walk, most: u32) -> bool
    ensures { result ≡ ends_piece walk most }
{
    let over = u64::from(walk.lines) + u64::from(system_of(walk.system).line_count());
    walk.line == 1 && 0 < walk.lines && u64::from(most) < over
}
