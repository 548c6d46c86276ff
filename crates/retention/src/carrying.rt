// Lines on their way from an input to a sink: read, judged, and handed on. A failed read is never the end of the input.
ghost use Rattle.std.specs.Prelude.{◌≡◌, ◌+◌, ◌-◌, ◌≤◌, length};
ghost use Rattle.intake.specs.Arrival.{WithinRoom};
ghost use Rattle.retention.specs.Turn.{Answers, Ready, closed_turn, moved_of, reached_of, turn_of};

use crate::pieces::least;
use crate::sink::Sink;
use console::Status;
use finished::Finishing;
use host::Host;
use index::ENTRY_LENGTH;
use intake::Told;
use system::{Figures, System625};

// How many lines the buffer holds: a whole number, so that no bytes are ever moved.
const LINES_HELD: usize = 48;

// Room for so many of the longer lines, two bytes a word, and for an entry of each.
const LINES_ROOM: usize = LINES_HELD * 2 * System625::LINE_LENGTH;

pub(crate) const ENTRIES_ROOM: usize = LINES_HELD * ENTRY_LENGTH;

// Lines that are carried: the bytes at..have of the buffer are read and not taken yet, and so many are left of the input, where it has to have
// them. The buffer is lent anew for each turn, so that they lie in it is a clause of each (`Ready`) and no invariant.
#[derive(Clone, Copy)]
pub(crate) struct Carried {
    pub(crate) finishing: Finishing,
    pub(crate) sink: Sink,
    at: usize,
    have: usize,
    left: u64,
}

impl Carried {
    // At the end of the input, with the bytes that were left: lines end. Where they are checked, the input has to have all of them.
    #[tactic(auto, unfolding(crate::specs::Turn::closed_turn))]
    fn close(&mut self, buffer: &[u8]) -> Result<bool, Status>
        requires { Ready self.old buffer.now }
        ensures turn { record { carried = self.new; goes_on = result } ≡ closed_turn self.old buffer.now }
        ensures ready { Ready self.new buffer.now }
    {
        if self.sink.checks() && self.left != 0 {
            return Err(Status::Shortened);
        }
        self.finishing = self.finishing.close(&buffer[self.at..self.have]);
        Ok(false)
    }

    // The same behind so many bytes more, that a sink took so, with the bytes at..have of the buffer not taken yet. Answers whether lines go on.
    fn moved(
        &mut self,
        finishing: Finishing,
        taken: Result<Sink, Status>,
        count: usize,
        at: usize,
        have: usize,
    ) -> Result<bool, Status>
        ensures { record { carried = self.new; goes_on = result } ≡ moved_of self.old finishing taken count at have }
    {
        self.finishing = finishing;
        self.at = at;
        self.have = have;
        self.left = self.left.saturating_sub(count as u64);
        self.sink = taken?;
        Ok(finishing.run.number == 0 && !self.sink.differs())
    }

    // Judges the lines of the bytes that lie ready, with so many more, and hands them on. A buffer that was taken to its end is filled from its
    // start again.
    fn reach(
        &mut self,
        host: &mut Host,
        count: usize,
        buffer: &[u8],
        room: &mut [u8],
    ) -> Result<bool, Status>
        requires { (self.old.at ≤ self.old.have) × (self.old.have + count ≤ length buffer.now) }
        ensures turn { (answers : Answers) × (record { carried = self.new; goes_on = result } ≡ reached_of self.old count buffer.now (length room.old) answers) }
        ensures ready { Ready self.new buffer.now }
    {
        let at = self.at;
        let have = self.have + count;
        let made = self.finishing.follow(&buffer[at..have], room);
        let end = at + made.taken;
        let taken = self.sink.take(host, &buffer[at..end], &room[..made.put]);
        if end == buffer.len() {
            return self.moved(made.finishing, taken, count, 0, 0);
        }
        self.moved(made.finishing, taken, count, end, have)
    }

    // What a turn makes of what a read told.
    fn turned(
        &mut self,
        host: &mut Host,
        told: Told,
        buffer: &[u8],
        room: &mut [u8],
    ) -> Result<bool, Status>
        requires { Ready self.old buffer.now × WithinRoom told (length buffer.now - self.old.have) }
        ensures turn { (answers : Answers) × (record { carried = self.new; goes_on = result } ≡ turn_of self.old told buffer.now (length room.old) answers) }
        ensures ready { Ready self.new buffer.now }
    {
        match told {
            Told::Failed => Err(Status::Unread),
            Told::Ended => self.close(buffer),
            Told::Bytes { count } => self.reach(host, count, buffer, room),
        }
    }

    // Reads once behind the bytes at..have of the buffer, at most as much as is left. Answers whether lines go on.
    fn turn(
        &mut self,
        host: &mut Host,
        input: i32,
        buffer: &mut [u8],
        room: &mut [u8],
    ) -> Result<bool, Status>
        requires { Ready self.old buffer.old }
        ensures { Ready self.new buffer.new }
    {
        let have = self.have;
        let most = least(self.left, buffer.len() - have);
        if most == 0 {
            return self.close(buffer);
        }
        let end = have + most;
        let got = host.read(input, &mut buffer[have..end]);
        let told = intake::tells(got, &buffer[have..end]);
        self.turned(host, told, buffer, room)
    }

    // Takes turns to the end of the input, the first refusal, the first difference or what the system fails in.
    fn run(
        &mut self,
        host: &mut Host,
        input: i32,
        buffer: &mut [u8],
        room: &mut [u8],
    ) -> Result<bool, Status>
        requires { Ready self.old buffer.old }
    {
        let is_shown = console::is_shown(host);
        let mut turned = Ok(true);
        let mut turns = u64::MAX;
        while turns > 0 {
            turned = self.turn(host, input, buffer, room);
            turns = console::turns_left(turns, !matches!(turned, Ok(true)));
            console::show_turn(host, is_shown, turns, self.finishing.run.walk);
        }
        console::end_turns(host, is_shown);
        turned
    }
}

// Carries the lines of a run, so many bytes of the input or, where that is more than it has, all of it. The buffer is cut to a whole number of
// the run's lines.
pub(crate) fn carry(
    host: &mut Host,
    input: i32,
    finishing: Finishing,
    sink: Sink,
    left: u64,
) -> Result<Carried, Status> {
    let mut buffer = [0u8; LINES_ROOM];
    let mut room = [0u8; ENTRIES_ROOM];
    let size = LINES_HELD * finishing.run.walk.line_bytes();
    let mut carried = Carried {
        finishing,
        sink,
        at: 0,
        have: 0,
        left,
    };
    carried.run(host, input, &mut buffer[..size], &mut room)?;
    Ok(carried)
}
