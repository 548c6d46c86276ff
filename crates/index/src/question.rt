// A question in steps, for an index that arrives in pieces.
ghost use Rattle.std.specs.Prelude.{◌≡◌, ◌+◌, ◌*◌, ◌≤◌, length, drop};
ghost use Rattle.refusal.specs.Reasons.{answered};
ghost use Rattle.index.specs.Entries.{within};
ghost use Rattle.index.specs.Parts.{range_refusal, asked_told};
ghost use Rattle.index.specs.Asking.{Whole, begun_of, between, entered, settled, too_many, gathered, step_of, fed_of, refusal_of, closed_of};

use crate::entry::{ENTRY_LENGTH, Entry};
use crate::trailer::{TRAILER_LENGTH, Trailer};
use refusal::{Reason, Refused};

// An index that is read as its bytes arrive: the system, the start line and the lines of the file, the lines asked for, the bytes that are
// left, the next byte's place in its entry and the bytes before it, the least ordinal that may follow, whether an entry fell among the lines
// asked for, and whether something is wrong. Each stands by itself, as the question's definitions name it.
#[derive(Clone, Copy)]
pub struct Question {
    pub system: u32,
    pub start: u32,
    pub lines: u32,
    pub a: u32,
    pub b: u32,
    pub left: u64,
    pub place: u32,
    pub c0: u8,
    pub c1: u8,
    pub c2: u8,
    pub c3: u8,
    pub c4: u8,
    pub least: u64,
    pub unclean: bool,
    pub wrong: bool,
}

// The whole entries of so many bytes, up to those that are left.
fn whole(left: u64, rest: usize) -> usize
    ensures { Whole left rest result }
{
    (left / 6).min(rest as u64 / 6) as usize
}

// Whether an ordinal is among lines a to b, both included.
fn within(a: u32, b: u32, ordinal: u32) -> bool
    ensures { result ≡ within a b ordinal }
{
    (a <= ordinal) & (ordinal <= b)
}

impl Question {
    // A question before the first byte of the index, of a file of so many bytes with this trailer.
    #[tactic(auto, using(system::proofs::Laws::longest), unfolding(crate::specs::Asking::begun_of))]
    pub fn begin(system: u32, start: u32, trailer: &[u8], length: u64, a: u32, b: u32) -> Question
        ensures { result ≡ begun_of system start trailer.now length a b }
    {
        let told = Trailer::of(trailer);
        let size = 2 * system::system_of(system).line_length();
        let fits = trailer.len() == TRAILER_LENGTH && told.fits(size as u64, length);
        Question {
            system,
            start,
            lines: told.lines,
            a,
            b,
            left: 6 * u64::from(told.entries),
            place: 0,
            c0: 0,
            c1: 0,
            c2: 0,
            c3: 0,
            c4: 0,
            least: 0,
            unclean: false,
            wrong: !fits,
        }
    }

    // The question between two entries, with these numbers.
    #[tactic(auto, unfolding(crate::specs::Asking::between))]
    fn between(self, left: u64, least: u64, unclean: bool, wrong: bool) -> Question
        ensures { result ≡ between self left least unclean wrong }
    {
        Question {
            left,
            place: 0,
            c0: 0,
            c1: 0,
            c2: 0,
            c3: 0,
            c4: 0,
            least,
            unclean,
            wrong,
            ..self
        }
    }

    // The question after a whole entry, with so many bytes left.
    fn enter(self, left: u64, entry: Entry) -> Question
        ensures { result ≡ entered self left entry }
    {
        self.between(
            left,
            u64::from(entry.ordinal) + 1,
            self.unclean | within(self.a, self.b, entry.ordinal),
            self.wrong | !entry.well(self.least, self.lines),
        )
    }

    // The question after so many whole entries from an offset on. What changes stands in locals, which stay in registers.
    fn run(self, bytes: &[u8], at: usize, count: usize) -> Question
        requires { (at + 6 * count ≤ length bytes.now) × (6 * count ≤ self.left) }
        ensures { fed_of (settled self) (drop at bytes.now) ≡ fed_of result (drop (at + 6 * count) bytes.now) }
    {
        let mut least = self.least;
        let mut unclean = self.unclean;
        let mut wrong = self.wrong;
        // By the count of the entries: of a chunk too each byte would be taken by its place.
        for k in 0..count {
            let p = at + 6 * k;
            let entry = Entry::of([
                bytes[p],
                bytes[p + 1],
                bytes[p + 2],
                bytes[p + 3],
                bytes[p + 4],
                bytes[p + 5],
            ]);
            unclean = unclean | within(self.a, self.b, entry.ordinal);
            wrong = wrong | !entry.well(least, self.lines);
            least = u64::from(entry.ordinal) + 1;
        }
        self.between(self.left - 6 * (count as u64), least, unclean, wrong)
    }

    // The question after a byte past the entries that the trailer tells.
    #[tactic(auto, unfolding(crate::specs::Asking::too_many))]
    fn too_many(self) -> Question
        ensures { result ≡ too_many self }
    {
        Question {
            wrong: true,
            ..self
        }
    }

    // The question after one byte more of an entry that is not whole.
    #[tactic(auto, unfolding(crate::specs::Asking::gathered))]
    fn gather(self, byte: u8) -> Question
        requires { (1 ≤ self.left) × (self.place ≤ 4) }
        ensures { result ≡ gathered self byte }
    {
        Question {
            left: self.left - 1,
            place: self.place + 1,
            c0: self.c1,
            c1: self.c2,
            c2: self.c3,
            c3: self.c4,
            c4: byte,
            ..self
        }
    }

    // The question after one byte more.
    #[tactic(auto, unfolding(crate::specs::Asking::step_of))]
    fn step(self, byte: u8) -> Question
        ensures { result ≡ step_of self byte }
    {
        if self.left == 0 {
            return self.too_many();
        }
        if self.place < 5 {
            return self.gather(byte);
        }
        let entry = Entry::of([self.c0, self.c1, self.c2, self.c3, self.c4, byte]);
        self.enter(self.left - 1, entry)
    }

    // The question after a piece of the index, of any size. Whole entries are taken at once.
    #[tactic(auto, using(crate::proofs::Questions::fed_one_at, crate::proofs::Questions::fed_settled, crate::proofs::Questions::fed_end))]
    pub fn feed(self, bytes: &[u8]) -> Question
        ensures { result ≡ fed_of self bytes.now }
    {
        let mut question = self;
        // A turn takes one byte or many entries, so no iterator gives the places.
        let mut at: usize = 0;
        while at < bytes.len() {
            let rest = bytes.len() - at;
            if question.place == 0 && question.left >= 6 && rest >= ENTRY_LENGTH {
                let count = whole(question.left, rest);
                question = question.run(bytes, at, count);
                at += 6 * count;
            } else {
                question = question.step(bytes[at]);
                at += 1;
            }
        }
        question
    }

    // What refuses the parts, where this was the whole index: 1, 2, 19.
    #[tactic(auto, using(refusal::proofs::Results::err_first, refusal::proofs::Results::ok_first), unfolding(crate::specs::Asking::refusal_of))]
    pub fn refusal(self) -> Result<(), Refused>
        ensures { answered result ≡ refusal_of self }
    {
        system::named_refusal(self.system, self.start)?;
        if self.wrong || self.left != 0 {
            return Err(Reason::BadParts.at(0));
        }
        Ok(())
    }

    // What refuses the lines asked for: 20.
    #[tactic(auto, unfolding(crate::specs::Parts::in_range))]
    fn range_refusal(self) -> Result<(), Refused>
        ensures { answered result ≡ range_refusal self.lines self.a self.b }
    {
        if self.b < self.a || self.lines <= self.b {
            return Err(Reason::BadRange.at(0));
        }
        Ok(())
    }

    // The answer, where this was the whole index: whether the lines are all clean.
    #[tactic(auto, using(refusal::proofs::Results::err_first, refusal::proofs::Results::ok_first), unfolding(crate::specs::Asking::closed_of))]
    pub fn close(self) -> Result<bool, Refused>
        ensures { asked_told result ≡ closed_of self }
    {
        self.refusal()?;
        self.range_refusal()?;
        Ok(!self.unclean)
    }
}
