// Recording rows as a run in steps, a line at a time, in one recording or in several.
ghost use Rattle.std.specs.Prelude.{◌≡◌, length};
ghost use Rattle.programme.specs.Tape.{begun_tape, turns_at, turned_of, taped_of, line_taped, ends_at};

use crate::recorder::record;
use crate::{ends_frame, ends_piece};
use system::Walk;

// A walk over the lines that are written, the most lines of a recording, where V of the first field falls, and the refusal that ended it, or 0.
// A number and a place, and no Option: `next` and `turned` take a tape of any number.
#[derive(Clone, Copy)]
pub struct Tape {
    pub walk: Walk,
    pub most: u32,
    pub fall: u32,
    pub number: u32,
    pub place: usize,
}

impl Tape {
    // A tape at its start, for recordings of at most so many lines each: a fresh walk; or what refuses the numbers, and a walk all zero.
    #[tactic(auto, unfolding(crate::specs::Tape::begun_tape))]
    pub fn begin(system: u32, start: u32, most: u32, fall: u32) -> Tape
        ensures { result ≡ begun_tape system start most fall }
    {
        match system::written_refusal(system, start, fall) {
            Ok(()) => Tape {
                walk: Walk {
                    system,
                    line: start,
                    ..Walk::ZERO
                },
                most,
                fall,
                number: 0,
                place: 0,
            },
            Err(refused) => Tape {
                walk: Walk::ZERO,
                most,
                fall,
                number: refused.reason.number(),
                place: refused.place,
            },
        }
    }

    // Whether a next recording begins before the awaited line.
    #[tactic(auto, unfolding(crate::specs::Tape::turns_at))]
    pub fn turns(self) -> bool
        ensures { result ≡ turns_at self }
    {
        ends_piece(self.walk, self.most)
    }

    // The tape at the start of a next recording, which begins with the awaited line. Its lines are counted from none again.
    #[tactic(auto, unfolding(crate::specs::Tape::turned_of))]
    pub fn turned(self) -> Tape
        ensures { result ≡ turned_of self }
    {
        let fresh = system::fresh_walk(self.walk.system, self.walk.line);
        Tape {
            walk: fresh.walk,
            ..self
        }
    }

    // The tape after its awaited line, which is recorded as `record` does. A tape that was refused stays as it is.
    #[tactic(auto, unfolding(crate::specs::Tape::taped_of, crate::specs::Tape::line_taped))]
    pub fn next(self, row: &[u8], between: &[u16], active: &[u16], line: &mut [u8]) -> Tape
        ensures answer { result ≡ taped_of self row.now (record { between = between.now; active = active.now }) (length line.old) }
        ensures line { line.new ≡ line_taped self row.now (record { between = between.now; active = active.now }) line.old }
    {
        if self.number != 0 {
            return self;
        }
        let judgement = record(self.walk, self.fall, row, between, active, line);
        Tape {
            walk: judgement.walk,
            number: judgement.number,
            place: judgement.place,
            ..self
        }
    }

    // Whether, after the last row, the awaited line still belongs to a frame that has begun, and the walk takes one more.
    #[tactic(auto, unfolding(crate::specs::Tape::ends_at))]
    pub fn ends(self) -> bool
        ensures { result ≡ ends_at self }
    {
        self.number == 0 && ends_frame(self.walk, self.fall) && self.walk.refusal().is_ok()
    }
}
