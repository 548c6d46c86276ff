// Finished files: finishing a recording, and what the full check of a finished file decides.
#![tactic(auto)]

mod meeting;

ghost use Rattle.std.specs.Prelude.{◌≡◌, ◌+◌, ◌/◌, ◌≤◌, ◌++◌, length, take, drop};
ghost use Rattle.index.specs.Entries.{entry_length};
ghost use Rattle.finished.specs.Finish.{line_adds, finished_next, fresh_finishing, made_of, room_after, finishing_closed, trailer_of_lines};

use confirmation::Run;
use index::{ENTRY_LENGTH, Entry, Trailer};
pub use meeting::{Meeting, differs_before, is_theirs};

// Lines on their way into a finished file, or under its check: the run over them, and how many of them were not clean.
#[derive(Clone, Copy)]
pub struct Finishing {
    pub run: Run,
    pub entries: u32,
}

// What one call made of the bytes that lay ready: the state after it, how many bytes were taken, and how many bytes of index were put.
#[derive(Clone, Copy)]
pub struct Made {
    pub finishing: Finishing,
    pub taken: usize,
    pub put: usize,
}

// A line that was judged: the state after it, and how many bytes of index were put.
#[derive(Clone, Copy)]
struct Lined {
    finishing: Finishing,
    put: usize,
}

impl Finishing {
    // Before the first line.
    pub fn of(run: Run) -> Finishing
        ensures { result ≡ fresh_finishing run }
    {
        Finishing { run, entries: 0 }
    }

    // Judges a line, and puts its entry into the room from an offset on, where it was not clean.
    fn next(self, line: &[u8], room: &mut [u8], at: usize) -> Lined
        requires { at + entry_length ≤ length room.old }
        ensures state { result.finishing ≡ finished_next self line.now }
        ensures put { result.put ≡ at + length (line_adds self.run.walk line.now) }
        ensures room { room.new ≡ take at room.old ++ room_after (line_adds self.run.walk line.now) (drop at room.old) }
    {
        let walk = self.run.walk;
        let judgement = bytewise::judge(walk, line);
        let repairs = system::repairs(judgement.report);
        let judged = Finishing {
            run: self.run.judged(judgement),
            ..self
        };
        if repairs == 0 {
            return Lined {
                finishing: judged,
                put: at,
            };
        }
        let end = at + ENTRY_LENGTH;
        Entry {
            ordinal: walk.lines,
            repairs,
        }
        .put(&mut room[at..end])
        .unwrap();
        Lined {
            finishing: Finishing {
                entries: self.entries.wrapping_add(1),
                ..judged
            },
            put: end,
        }
    }

    // What a call made that ends here.
    fn made(self, taken: usize, put: usize) -> Made
        ensures state { result.finishing ≡ self }
        ensures taken { result.taken ≡ taken }
        ensures put { result.put ≡ put }
    {
        Made {
            finishing: self,
            taken,
            put,
        }
    }

    // Judges every whole line of the bytes that lie ready, up to the first refusal, and puts the entries of those that were not clean; at most
    // one line for each six bytes of room. Where the run goes on and the room was enough, what is left is shorter than a line and stands
    // before the next bytes.
    pub fn follow(self, bytes: &[u8], room: &mut [u8]) -> Made
        ensures state { result.finishing ≡ (made_of (length room.old / entry_length) self bytes.now).finishing }
        ensures taken { result.taken ≡ (made_of (length room.old / entry_length) self bytes.now).taken }
        ensures put { result.put ≡ length (made_of (length room.old / entry_length) self bytes.now).index }
        ensures room { room.new ≡ room_after (made_of (length room.old / entry_length) self bytes.now).index room.old }
    {
        let size = self.run.walk.line_bytes();
        let mut finishing = self;
        let mut at: usize = 0;
        let mut put: usize = 0;
        let mut turns = room.len() / ENTRY_LENGTH;
        // The offset is counted by hand: how far it came is part of the answer. Confirming has a loop of its own, which needs no room.
        while turns > 0 && at < bytes.len() {
            let run = finishing.run;
            if run.number != 0 {
                return finishing.made(at, put);
            }
            if run.walk.refusal().is_err() {
                let ended = Finishing {
                    run: run.next(&bytes[at..]),
                    ..finishing
                };
                return ended.made(at, put);
            }
            if bytes.len() - at < size {
                return finishing.made(at, put);
            }
            let end = at + size;
            let lined = finishing.next(&bytes[at..end], room, put);
            finishing = lined.finishing;
            put = lined.put;
            at = end;
            turns -= 1;
        }
        finishing.made(at, put)
    }

    // At the end of the input, with the bytes that were left.
    #[tactic(auto, unfolding(crate::specs::Finish::finishing_closed))]
    pub fn close(self, bytes: &[u8]) -> Finishing
        ensures { result ≡ finishing_closed self bytes.now }
    {
        Finishing {
            run: self.run.close(bytes),
            ..self
        }
    }

    // The trailer behind the index of these lines.
    #[tactic(auto, unfolding(crate::specs::Finish::trailer_of_lines))]
    pub fn trailer(self) -> Trailer
        ensures { result ≡ trailer_of_lines self }
    {
        let walk = self.run.walk;
        Trailer {
            offset: u64::from(walk.lines) * walk.line_bytes() as u64,
            entries: self.entries,
            lines: walk.lines,
        }
    }
}
