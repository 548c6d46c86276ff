// The walk over consecutive lines: what it holds, what it refuses, what is due at it, and where it moves; and the answer to a line.
ghost use Rattle.std.specs.Prelude.{◌≡◌, ◌*◌, ◌%◌, ◌^◌, ◌≤◌};
ghost use Rattle.refusal.specs.Reasons.{answered};
ghost use Rattle.timing.specs.Report.{repairs_in, repairs_of};
ghost use Rattle.system.specs.declared.System.TheVariants.{Lines625};
ghost use Rattle.system.specs.Figures.{system_of, line_length};
ghost use Rattle.system.specs.Walk.{walk_refusal, standing_refusal, fresh_of, v_seen, has_fallen, v_due, due_by, line_words, line_bytes, tally_with, moved_of};
ghost use Rattle.system.specs.Judgement.{refused_at, moved_at};

use crate::{Due, System, named_refusal, system_of};
use refusal::{Reason, Refusal, Refused};
use timing::{CodeReport, Correction, Report, correct};

// Where a reader of consecutive lines stands: the system's number, the awaited line, what was counted so far, whether V was 0 in the last
// accepted line, 0 for no, else yes, and how many of the repairs are of this field.
// Numbers, and no System or bool: a walk comes from callers, C among them, by Walk::of, and may hold any numbers until refusal() judges them.
#[derive(Clone, Copy)]
pub struct Walk {
    pub system: u32,
    pub line: u32,
    pub lines: u32,
    pub repairs: u32,
    pub fallen: u32,
    pub tally: u32,
}

// The answer to a fresh walk: a refusal returns a walk all zero.
// A number and a place beside the walk, and no Result: document 01 has a refusal return a walk too (fresh_refused_zero).
#[derive(Clone, Copy)]
pub struct Fresh {
    pub number: u32,
    pub place: usize,
    pub walk: Walk,
}

// A fresh walk of any system from any line: 1, 2.
#[tactic(auto, using(crate::proofs::Laws::fresh_named, crate::proofs::Laws::fresh_refused))]
pub fn fresh_walk(system: u32, start: u32) -> Fresh
    ensures { result ≡ fresh_of system start }
{
    match named_refusal(system, start) {
        Ok(()) => Fresh {
            number: 0,
            place: 0,
            walk: Walk {
                system,
                line: start,
                ..Walk::ZERO
            },
        },
        Err(refused) => Fresh {
            number: refused.reason.number(),
            place: refused.place,
            walk: Walk::ZERO,
        },
    }
}

fn repairs_in(report: CodeReport) -> u32
    ensures { (result ≡ repairs_in report) × (result ≤ 1) }
{
    match report {
        CodeReport::Clean => 0,
        CodeReport::Repaired { .. } => 1,
    }
}

// The codes that a report tells as repaired: 0 to 2.
pub fn repairs(report: Report) -> u32
    ensures { result ≡ repairs_of report }
{
    repairs_in(report.eav) + repairs_in(report.sav)
}

// V of a corrected code; where there is none the line is refused, and the table's 1 stands.
fn v_seen(correction: Correction) -> bool
    ensures { result ≡ v_seen correction }
{
    match correction {
        Correction::Clean { fvh } | Correction::Repaired { fvh, .. } => fvh / 2 % 2 == 1,
        Correction::Refused { .. } => true,
    }
}

impl Walk {
    pub const MOST_LINES: u32 = 10_000_000;

    // The walk that a refused fresh walk answers.
    pub const ZERO: Walk = Walk {
        system: 0,
        line: 0,
        lines: 0,
        repairs: 0,
        fallen: 0,
        tally: 0,
    };

    // The walk that holds these numbers.
    pub fn of(system: u32, line: u32, lines: u32, repairs: u32, fallen: u32, tally: u32) -> Walk
        ensures { result ≡ record { system = system; line = line; lines = lines; repairs = repairs; fallen = fallen; tally = tally } }
    {
        Walk {
            system,
            line,
            lines,
            repairs,
            fallen,
            tally,
        }
    }

    // What refuses every line at this walk: 1, 2, 4.
    #[tactic(auto, using(refusal::proofs::Results::err_first, refusal::proofs::Results::ok_first), unfolding(crate::specs::Walk::walk_refusal))]
    pub fn refusal(self) -> Result<(), Refused>
        ensures { answered result ≡ walk_refusal self }
    {
        named_refusal(self.system, self.line)?;
        if Self::MOST_LINES <= self.lines
            || 2 * self.lines < self.repairs
            || self.repairs < self.tally
        {
            return Err(Reason::BadCounts.at(0));
        }
        Ok(())
    }

    // What refuses the awaited line before its words are looked at: the walk's refusals, then 3 at 0 where not so many are given as are due.
    #[tactic(auto, using(refusal::proofs::Results::err_first, refusal::proofs::Results::ok_first))]
    pub fn standing(self, given: usize, due: usize) -> Result<(), Refused>
        ensures { answered result ≡ standing_refusal self given due }
    {
        self.refusal()?;
        if given != due {
            return Err(Reason::WrongLength.at(0));
        }
        Ok(())
    }

    // The awaited line's system.
    fn system(self) -> System
        ensures { result ≡ system_of self.system }
    {
        system_of(self.system)
    }

    // The words of the awaited line.
    pub fn line_words(self) -> usize
        ensures { result ≡ line_words self }
    {
        self.system().line_length()
    }

    // The bytes of the awaited line, two for each word: at most those of the longer line.
    #[tactic(auto, using(crate::proofs::Laws::longest))]
    pub fn line_bytes(self) -> usize
        ensures bytes { result ≡ line_bytes self }
        ensures most { result ≤ 2 * line_length Lines625 }
    {
        2 * self.line_words()
    }

    // Whether V has fallen before the awaited line, if the record counts on it.
    #[tactic(auto, unfolding(crate::specs::Walk::has_fallen))]
    fn has_fallen(self) -> bool
        ensures { result ≡ has_fallen (system_of self.system) self.line self.fallen }
    {
        self.system().looks_back(self.line) && self.fallen != 0
    }

    // V that is due in the awaited line: the table's, but where it may fall 0 after the record says so, and else the one of its EAV.
    #[tactic(auto, unfolding(crate::specs::Walk::v_due))]
    fn v_due(self, fourth: u16) -> bool
        ensures { result ≡ v_due (system_of self.system) self.line self.fallen fourth }
    {
        let system = self.system();
        if system.may_fall(self.line) {
            !self.has_fallen() && v_seen(correct(fourth))
        } else {
            system.v(self.line)
        }
    }

    // What is due in the line that is lent at this walk, by the fourth word of its EAV, for all who read.
    #[tactic(auto, unfolding(crate::specs::Walk::due_by))]
    pub fn due(self, fourth: u16) -> Due
        ensures { result ≡ due_by self fourth }
    {
        Due::with(self.system(), self.line, self.v_due(fourth))
    }

    // The tally with the repairs of an accepted line: anew where F differs from that of the line before.
    #[tactic(auto, using(crate::proofs::Laws::at_most_two))]
    fn tallied(self, due: Due, report: Report) -> u32
        ensures { result ≡ tally_with due.system self.line self.tally (repairs_of report) % 2 ^ 32 }
    {
        let count = repairs(report);
        if due.system.turns_field(self.line) {
            return count;
        }
        self.tally.wrapping_add(count)
    }

    // The walk after an accepted line in which this was due, with this report. Counts are of 32 bits: a walk that refuses no line has room.
    #[tactic(auto, unfolding(crate::specs::Walk::moved_of))]
    pub fn moved(self, due: Due, report: Report) -> Walk
        ensures { result ≡ moved_of self due report }
    {
        Walk {
            system: self.system,
            line: due.system.next_line(self.line),
            lines: self.lines.wrapping_add(1),
            repairs: self.repairs.wrapping_add(repairs(report)),
            // whether its V was 0
            fallen: u32::from(!due.v),
            tally: self.tallied(due, report),
        }
    }
}

// How many words are packets: of the space between EAV and SAV, and of the active part.
#[derive(Clone, Copy, Debug, PartialEq, Eq)]
pub struct PacketWords {
    pub between: usize,
    pub active: usize,
}

impl PacketWords {
    pub const NONE: PacketWords = PacketWords {
        between: 0,
        active: 0,
    };
}

// The answer to a line: its number and place, what is told of its two codes, the walk after it, and its packets.
// A number and a place, and no Result: a refused line is told a walk and a report too, and Run::judged takes an answer of any number.
#[derive(Clone, Copy)]
pub struct Judgement {
    pub number: u32,
    pub place: usize,
    pub report: Report,
    pub walk: Walk,
    pub packets: PacketWords,
}

impl Judgement {
    // The answer to a refused line: the walk stands, both codes are told as clean, and no word is told as a packet's.
    // It takes a Refusal, and no Refused: refused_one_result speaks of every number.
    pub fn refused(walk: Walk, refusal: Refusal) -> Judgement
        ensures { result ≡ refused_at walk refusal }
    {
        Judgement {
            number: refusal.number,
            place: refusal.place,
            report: Report::CLEAN,
            walk,
            packets: PacketWords::NONE,
        }
    }

    // The answer to an accepted line in which this was due, with this report and these packets.
    pub fn accepted(walk: Walk, due: Due, report: Report, packets: PacketWords) -> Judgement
        ensures { result ≡ moved_at walk due report packets }
    {
        Judgement {
            number: 0,
            place: 0,
            report,
            walk: walk.moved(due, report),
            packets,
        }
    }
}
