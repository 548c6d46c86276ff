// What the confirming program decides: a run over the bytes of a recording, however they arrive, and the sums over several.
#![tactic(auto)]

mod totals;

ghost use Rattle.std.specs.Prelude.{◌≡◌, ◌+◌, ◌≤◌};
ghost use Rattle.confirmation.specs.Run.{header_length, header_word, fresh_run, begun_of, run_after, judged_next, outcome_of};
ghost use Rattle.confirmation.specs.Follow.{followed_of, closed_of};

use system::{Judgement, Walk};
pub use totals::{Totals, follows_on};
use words::word_of;

// The bytes of a header: two words.
const HEADER_LENGTH: usize = 4;

// A run: its header's numbers, the walk over its lines, and the refusal that ended it, or 0. Numbers and no `Result`: `followed_of`, `closed_of` and
// `outcome_of` say what a run of any numbers comes to.
#[derive(Clone, Copy)]
pub struct Run {
    pub system: u32,
    pub start: u32,
    pub walk: Walk,
    pub number: u32,
    pub place: usize,
}

// What one call took of the bytes that lay ready: the run after it, and how many bytes were taken.
#[derive(Clone, Copy)]
pub struct Followed {
    pub run: Run,
    pub taken: usize,
}

// The numbers of the confirming program's five lines, as they are printed.
#[derive(Clone, Copy)]
pub struct Outcome {
    pub system: u32,
    pub start: u32,
    pub lines: u32,
    pub repairs: u32,
    pub number: u32,
    pub line: u32,
    pub place: usize,
}

// The word at a byte of a header. Under four bytes of header it is 0, as the document says.
fn header_word(header: &[u8], at: usize) -> u32
    requires { at + 2 ≤ header_length }
    ensures { result ≡ header_word header.now at }
{
    if header.len() < HEADER_LENGTH {
        return 0;
    }
    u32::from(word_of(header[at], header[at + 1]))
}

impl Run {
    // A run of this system from this line on, before its lines: a fresh walk, or its refusal.
    pub fn fresh(system: u32, start: u32) -> Run
        ensures { result ≡ fresh_run system start }
    {
        let fresh = system::fresh_walk(system, start);
        Run {
            system,
            start,
            walk: fresh.walk,
            number: fresh.number,
            place: fresh.place,
        }
    }

    // A run from its header, the first four bytes: a fresh walk, or its refusal. Under four bytes count as system 0, start 0.
    #[tactic(auto, unfolding(crate::specs::Run::begun_of))]
    pub fn begin(header: &[u8]) -> Run
        ensures { result ≡ begun_of header.now }
    {
        Run::fresh(header_word(header, 0), header_word(header, 2))
    }

    // The run whose next line was judged so.
    pub fn judged(self, judgement: Judgement) -> Run
        ensures { result ≡ run_after self judgement }
    {
        Run {
            walk: judgement.walk,
            number: judgement.number,
            place: judgement.place,
            ..self
        }
    }

    // The run after these bytes were judged as its next line: short of a line they are 3, after 10,000,000 lines 4.
    #[tactic(auto, unfolding(crate::specs::Run::judged_next))]
    pub fn next(self, bytes: &[u8]) -> Run
        ensures { result ≡ judged_next self bytes.now }
    {
        self.judged(bytewise::judge(self.walk, bytes))
    }

    // Judges every whole line of the bytes that lie ready, up to the first refusal, and says how many bytes it took.
    // Where the run goes on, what is left is shorter than a line and stands before the next bytes.
    pub fn follow(self, bytes: &[u8]) -> Followed
        ensures { result ≡ followed_of self bytes.now }
    {
        let size = self.walk.line_bytes();
        let mut run = self;
        let mut at: usize = 0;
        // The offset is counted by hand: how far it came is part of the answer.
        while run.number == 0 && at < bytes.len() {
            if run.walk.refusal().is_err() {
                let ended = run.next(&bytes[at..]);
                return Followed {
                    run: ended,
                    taken: at,
                };
            }
            if bytes.len() - at < size {
                return Followed { run, taken: at };
            }
            let end = at + size;
            run = run.next(&bytes[at..end]);
            at = end;
        }
        Followed { run, taken: at }
    }

    // The run at the end of the input, with the bytes that were left.
    #[tactic(auto, unfolding(crate::specs::Follow::closed_of))]
    pub fn close(self, bytes: &[u8]) -> Run
        ensures { result ≡ closed_of self bytes.now }
    {
        if self.number != 0 || bytes.is_empty() {
            return self;
        }
        self.next(bytes)
    }

    // The numbers that the program prints.
    #[tactic(auto, unfolding(crate::specs::Run::outcome_of))]
    pub fn outcome(self) -> Outcome
        ensures { result ≡ outcome_of self }
    {
        let walk = self.walk;
        Outcome {
            system: self.system,
            start: self.start,
            lines: walk.lines,
            repairs: walk.repairs,
            number: self.number,
            line: if self.number < 3 { 0 } else { walk.line },
            place: self.place,
        }
    }
}
