// Several recordings: the sums over them, and whether one goes on where another ended.
ghost use Rattle.std.specs.Prelude.{◌≡◌};
ghost use Rattle.confirmation.specs.Totals.{lines_if, refusals_in, no_totals, with_read, with_unread, lines_of, hours_of, follows_on};

use crate::{Outcome, Run};
use system::{Figures, System525, System625};

// A ten-thousandth of an hour has so many lines of 525, times 1001; and 5,625 lines of 625, which is 1008 times less.
const UNIT: u64 = 5_670_000;

// What is counted over recordings: how many they are, the lines accepted of either system, the repairs, and how many were refused or not read.
#[derive(Clone, Copy, Default)]
pub struct Totals {
    pub files: u64,
    pub lines525: u64,
    pub lines625: u64,
    pub repairs: u64,
    pub refused: u64,
    pub unread: u64,
}

// The lines of an outcome where it is of this system.
#[tactic(auto, unfolding(crate::specs::Totals::lines_if))]
fn lines_if(outcome: Outcome, system: u32) -> u64
    ensures { result ≡ lines_if outcome system }
{
    if outcome.system == system {
        u64::from(outcome.lines)
    } else {
        0
    }
}

// 1 for a refused recording.
#[tactic(auto, unfolding(crate::specs::Totals::refusals_in))]
fn refusals(outcome: Outcome) -> u64
    ensures { result ≡ refusals_in outcome }
{
    u64::from(outcome.number != 0)
}

impl Totals {
    #[tactic(auto, unfolding(crate::specs::Totals::no_totals))]
    pub fn none() -> Totals
        ensures { result ≡ no_totals }
    {
        Totals::default()
    }

    // With a recording more that was read.
    #[tactic(auto, unfolding(crate::specs::Totals::with_read))]
    pub fn with_read(self, outcome: Outcome) -> Totals
        ensures { result ≡ with_read self outcome }
    {
        Totals {
            files: self.files.wrapping_add(1),
            lines525: self
                .lines525
                .wrapping_add(lines_if(outcome, System525::NUMBER)),
            lines625: self
                .lines625
                .wrapping_add(lines_if(outcome, System625::NUMBER)),
            repairs: self.repairs.wrapping_add(u64::from(outcome.repairs)),
            refused: self.refused.wrapping_add(refusals(outcome)),
            ..self
        }
    }

    // With a recording more that could not be read.
    #[tactic(auto, unfolding(crate::specs::Totals::with_unread))]
    pub fn with_unread(self) -> Totals
        ensures { result ≡ with_unread self }
    {
        Totals {
            files: self.files.wrapping_add(1),
            unread: self.unread.wrapping_add(1),
            ..self
        }
    }

    // The lines of both systems.
    #[tactic(auto, unfolding(crate::specs::Totals::lines_of))]
    pub fn lines(self) -> u64
        ensures { result ≡ lines_of self }
    {
        self.lines525.wrapping_add(self.lines625)
    }

    // The time of the programme in ten-thousandths of an hour, to the nearest.
    #[tactic(auto, unfolding(crate::specs::Totals::hours_of))]
    pub fn hours(self) -> u64
        ensures { result ≡ hours_of self }
    {
        let whole = 1001 * (self.lines525 / UNIT) + 1008 * (self.lines625 / UNIT);
        let rest = 1001 * (self.lines525 % UNIT) + 1008 * (self.lines625 % UNIT);
        whole + (rest + UNIT / 2) / UNIT
    }
}

// Whether a recording goes on where another ended: that one was accepted, and this one starts with the line that it awaits, of its system.
#[tactic(auto, unfolding(crate::specs::Totals::follows_on))]
pub fn follows_on(before: Run, run: Run) -> bool
    ensures { result ≡ follows_on before run }
{
    before.number == 0 && run.system == before.system && run.start == before.walk.line
}
