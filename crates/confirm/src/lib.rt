// Confirming: reads a recording to its end or its first refusal. What it decides of a recording is in `confirmation`, and what each turn makes
// of a read's count and bytes is in the contracts here; what comes of reading is up to the system.
#![tactic(auto)]

ghost use Rattle.std.specs.Prelude.{◌≡◌, ◌+◌, ◌*◌, ◌-◌, ◌≤◌, length};
ghost use Rattle.system.specs.declared.System.TheVariants.{Lines625};
ghost use Rattle.system.specs.Figures.{line_length};
ghost use Rattle.intake.specs.Arrival.{told_of, WithinRoom};
ghost use Rattle.confirm.specs.Turn.{IsWithin, reached_of, turn_of, read_of};

use confirmation::Run;
use console::Read;
use host::Host;
use intake::Told;
use system::{Figures, System625};

// How many lines the buffer holds: a whole number, so that no bytes are ever moved. A live pipe's lines are judged as they come.
const LINES_HELD: usize = 48;

// Room for so many of the longer lines, two bytes a word.
const ROOM: usize = LINES_HELD * 2 * System625::LINE_LENGTH;

// How reading stands: it goes on, it is done, or a failed read ended it.
#[derive(Clone, Copy, PartialEq, Eq)]
enum Reading {
    On,
    Done,
    Failed,
}

// A run, where the bytes at..have of the buffer are read and not taken yet, and how reading stands.
#[derive(Clone, Copy)]
struct Ready {
    run: Run,
    at: usize,
    have: usize,
    reading: Reading,
}

impl Ready {
    // Follows the run over the bytes that lie ready, with so many more.
    #[tactic(auto, using(crate::proofs::Taken::taken_before), unfolding(crate::specs::Turn::reached_of))]
    fn reach(self, more: usize, buffer: &[u8]) -> Ready
        requires { (self.at ≤ self.have) × (self.have + more ≤ length buffer.now) }
        ensures turn { result ≡ reached_of self.run self.at (self.have + more) buffer.now }
        ensures within { IsWithin result (length buffer.now) }
    {
        let have = self.have + more;
        let followed = self.run.follow(&buffer[self.at..have]);
        let run = followed.run;
        let at = self.at + followed.taken;
        let reading = if run.number == 0 {
            Reading::On
        } else {
            Reading::Done
        };
        if at == buffer.len() {
            return Ready {
                run,
                at: 0,
                have: 0,
                reading,
            };
        }
        Ready {
            run,
            at,
            have,
            reading,
        }
    }

    // What a turn makes of what a read told, behind the bytes that lie ready. A failed read is not the end of the input.
    fn turned(self, told: Told, buffer: &[u8]) -> Ready
        requires within { IsWithin self (length buffer.now) }
        requires room { WithinRoom told (length buffer.now - self.have) }
        ensures turn { result ≡ turn_of self.run self.at self.have told buffer.now }
        ensures within { IsWithin result (length buffer.now) }
    {
        match told {
            Told::Failed => Ready {
                reading: Reading::Failed,
                ..self
            },
            Told::Ended => Ready {
                run: self.run.close(&buffer[self.at..self.have]),
                reading: Reading::Done,
                ..self
            },
            Told::Bytes { count } => self.reach(count, buffer),
        }
    }

    // The same, given the read's count.
    fn counted(self, got: isize, buffer: &[u8]) -> Ready
        requires { IsWithin self (length buffer.now) }
        ensures turn { result ≡ turn_of self.run self.at self.have (told_of got (length buffer.now - self.have)) buffer.now }
        ensures within { IsWithin result (length buffer.now) }
    {
        let told = intake::tells(got, &buffer[self.have..]);
        self.turned(told, buffer)
    }

    // Reads once behind the bytes that lie ready.
    fn turn(self, host: &mut Host, input: i32, buffer: &mut [u8]) -> Ready
        requires { IsWithin self (length buffer.old) }
        ensures { IsWithin result (length buffer.new) }
    {
        let got = host.read(input, &mut buffer[self.have..]);
        self.counted(got, buffer)
    }

    // What confirming comes to. A failed read is no end: a shorter file must not be confirmed in its place.
    fn come_to(self) -> Read
        ensures { result ≡ read_of self }
    {
        match self.reading {
            Reading::Done => Read::ended(self.run),
            Reading::On | Reading::Failed => Read::unread(self.run),
        }
    }
}

// Follows the run to the end of the input or its first refusal: the turns count down, as `console::turns_left` says.
fn follow(host: &mut Host, input: i32, run: Run, buffer: &mut [u8]) -> Read {
    let is_shown = console::is_shown(host);
    let mut ready = Ready {
        run,
        at: 0,
        have: 0,
        reading: Reading::On,
    };
    let mut turns = u64::MAX;
    while turns > 0 {
        ready = ready.turn(host, input, buffer);
        turns = console::turns_left(turns, ready.reading != Reading::On);
        console::show_turn(host, is_shown, turns, ready.run.walk);
    }
    console::end_turns(host, is_shown);
    ready.come_to()
}

// The same by way of a buffer that holds LINES_HELD of the longer lines and is cut to a whole number of the run's. The buffer is lent, since no
// proof closes where the array itself is cut.
fn confirm_by(host: &mut Host, input: i32, run: Run, buffer: &mut [u8]) -> Read
    requires { 96 * line_length Lines625 ≤ length buffer.old }
{
    let size = LINES_HELD * run.walk.line_bytes();
    follow(host, input, run, &mut buffer[..size])
}

// Confirms a recording whose header was read.
pub fn confirm(host: &mut Host, input: i32, run: Run) -> Read {
    if run.number != 0 {
        return Read::ended(run);
    }
    let mut buffer = [0u8; ROOM];
    confirm_by(host, input, run, &mut buffer)
}
