// What the verbs share: reading a recording's start, filling a buffer, and saying how a run goes and how it ended. What comes of these
// calls is up to the system, so no contract can determine it.
#![tactic(auto)]

mod header;
mod name;
mod refused;

ghost use Rattle.std.specs.Prelude.{◌≡◌, ◌-◌, ◌<◌, ◌≤◌, false, length};
ghost use Rattle.intake.specs.Arrival.{told_of, so_far, filled_after};
ghost use Rattle.console.specs.Status.{code_of, ended_of, unread_of, begun_read};

use arrayvec::ArrayVec;
use confirmation::{Outcome, Run, Totals};
pub use header::put_header;
use host::{ERRORS, Host, INPUT, OUTPUT};
use intake::Filled;
pub use name::{put, say_name};
pub use refused::{say_place, say_refused, say_refused_file};
use std::io::Write;
use std::num::wrapping_add_u64;
use system::{Figures, System, System525, System625, Walk};

// How many turns pass between two reports of progress.
const TURNS_A_REPORT: u64 = 4096;

// How reading or writing ended. A failed read is never the end of the input. What Failed stands for was said where it happened.
#[derive(Clone, Copy)]
pub enum Status {
    Done,
    Refused,
    Unread,
    Shortened,
    Unwritten,
    Failed,
}

impl Status {
    // The exit status that it stands for.
    pub fn code(self) -> u32
        ensures { result ≡ code_of self }
    {
        match self {
            Status::Done => 0,
            Status::Refused => 1,
            Status::Unread | Status::Shortened | Status::Unwritten | Status::Failed => 2,
        }
    }

    // Says what the system failed in, before another call fails. With no name it was standard input.
    pub fn say_failure(self, host: &mut Host, verb: &[u8], name: &[u8]) {
        match self {
            Status::Unread => say_unread(host, verb, name),
            Status::Shortened => say_shortened(host, verb, name),
            Status::Unwritten => say_unwritten(host, verb),
            _ => {}
        }
    }
}

// A run over a recording, and how it ended: what was read is told however that was, so this is no Result.
#[derive(Clone, Copy)]
pub struct Read {
    pub run: Run,
    pub status: Status,
}

impl Read {
    // A run that came to its end or to a refusal.
    #[tactic(auto, unfolding(crate::specs::Status::ended_of))]
    pub fn ended(run: Run) -> Read
        ensures { result ≡ ended_of run }
    {
        let status = if run.number == 0 {
            Status::Done
        } else {
            Status::Refused
        };
        Read { run, status }
    }

    // A run that could not be read on.
    pub fn unread(run: Run) -> Read
        ensures { result ≡ unread_of run }
    {
        Read {
            run,
            status: Status::Unread,
        }
    }
}

// What a buffer with so many bytes comes to after a read with this count into what was left of it.
#[tactic(auto, using(crate::proofs::Fills::filled_within))]
fn filled_by(got: isize, have: usize, buffer: &[u8]) -> Filled
    requires { have ≤ length buffer.now }
    ensures turn { result ≡ filled_after (so_far have) (told_of got (length buffer.now - have)) (length buffer.now - have) }
    ensures within { (result.have ≤ length buffer.now) × (result.done ≡ false → have < result.have) }
{
    let told = intake::tells(got, &buffer[have..]);
    Filled::so_far(have).after(told, buffer.len() - have)
}

// The place so many bytes behind an offset. No file has as many bytes as this wraps at.
fn position(offset: u64, have: usize) -> u64 {
    wrapping_add_u64(offset, have as u64) % (1 << 62)
}

// Reads until the buffer is full, the input ends or a read fails: `Filled::after` says what each read comes to. A read is told how many bytes
// were filled before it, and puts its own into what is left.
fn fill_by<F: FnMut(usize, &mut [u8]) -> isize>(mut read: F, buffer: &mut [u8]) -> Filled
    requires { F.IsAlwaysCallable read }
    ensures { result.have ≤ length buffer.new }
{
    let mut have: usize = 0;
    while have < buffer.len() {
        let got = read(have, &mut buffer[have..]);
        let filled = filled_by(got, have, buffer);
        if filled.done {
            return filled;
        }
        have = filled.have;
    }
    Filled {
        have,
        done: true,
        failed: false,
    }
}

// Fills a buffer, as far as the input goes.
pub fn fill(host: &mut Host, input: i32, buffer: &mut [u8]) -> Filled
    ensures { result.have ≤ length buffer.new }
{
    fill_by(|_, rest| host.read(input, rest), buffer)
}

// Fills a buffer from an offset of a file on, as far as the file goes.
pub fn fill_at(host: &mut Host, input: i32, offset: u64, buffer: &mut [u8]) -> Filled
    ensures { result.have ≤ length buffer.new }
{
    fill_by(
        |have, rest| host.read_at(input, rest, position(offset, have)),
        buffer,
    )
}

// What a header comes to, as far as it was filled.
#[tactic(auto, unfolding(crate::specs::Status::begun_read))]
fn begun(header: &[u8], filled: Filled) -> Read
    requires { filled.have ≤ length header.now }
    ensures { result ≡ begun_read header.now filled }
{
    let run = Run::begin(&header[..filled.have]);
    if filled.failed {
        return Read::unread(run);
    }
    Read::ended(run)
}

// Reads a recording's header.
pub fn begin(host: &mut Host, input: i32) -> Read {
    let mut header = [0u8; 4];
    let filled = fill(host, input, &mut header);
    begun(&header, filled)
}

// Writes some text and a number. True where all of it was written.
pub fn say(host: &mut Host, output: i32, text: &[u8], number: u64) -> bool {
    host.write_all(output, text) && host.print_decimal(output, number)
}

// Writes what ends one of the five numbers, and the next with its name.
fn say_next(host: &mut Host, output: i32, between: &[u8], text: &[u8], number: u64) -> bool {
    host.write_all(output, between) && say(host, output, text, number)
}

// The confirming program's five lines, with something else in place of the ends of lines. Here and below what follows is written whether or not
// what stands before it could be.
fn print_numbers(host: &mut Host, output: i32, outcome: Outcome, between: &[u8]) -> bool {
    say(host, output, b"SYSTEM ", u64::from(outcome.system))
        & say_next(host, output, between, b"START ", u64::from(outcome.start))
        & say_next(host, output, between, b"LINES ", u64::from(outcome.lines))
        & say_next(
            host,
            output,
            between,
            b"REPAIRS ",
            u64::from(outcome.repairs),
        )
        & say_next(host, output, between, b"RESULT ", u64::from(outcome.number))
        & say(host, output, b" ", u64::from(outcome.line))
        & say(host, output, b" ", outcome.place as u64)
        & host.write_all(output, between)
}

// Writes the confirming program's five lines. True where all of them were written.
pub fn print_outcome(host: &mut Host, output: i32, outcome: Outcome) -> bool {
    print_numbers(host, output, outcome, b"\n")
}

// Writes the same on one line, and the recording's name.
pub fn print_row(host: &mut Host, output: i32, outcome: Outcome, name: &[u8]) -> bool {
    print_numbers(host, output, outcome, b" ")
        & say_name(host, output, name)
        & host.write_all(output, b"\n")
}

// Writes the line of a recording that could not be read.
pub fn print_unread(host: &mut Host, output: i32, name: &[u8]) -> bool {
    host.write_all(output, b"UNREAD ")
        & say_name(host, output, name)
        & host.write_all(output, b"\n")
}

// Writes ten-thousandths as a number with four digits behind the point.
fn say_ten_thousandths(host: &mut Host, output: i32, text: &[u8], number: u64) -> bool {
    let mut digits = ArrayVec::<u8, 5>::new();
    let _ = write!(digits, ".{:04}", number % 10_000);
    say(host, output, text, number / 10_000) & host.write_all(output, digits.as_slice())
}

// Writes the sums over several recordings, on one line.
pub fn print_totals(host: &mut Host, output: i32, totals: Totals) -> bool {
    say(host, output, b"FILES ", totals.files)
        & say(host, output, b" LINES ", totals.lines())
        & say_ten_thousandths(host, output, b" HOURS ", totals.hours())
        & say(host, output, b" REPAIRS ", totals.repairs)
        & say(host, output, b" REFUSED ", totals.refused)
        & say(host, output, b" UNREAD ", totals.unread)
        & host.write_all(output, b"\n")
}

// Whether progress is shown: on a terminal only.
pub fn is_shown(host: &Host) -> bool {
    host.is_terminal(ERRORS)
}

// How many whole pictures a walk's lines are.
fn pictures(walk: Walk) -> u32 {
    match system::system_of(walk.system) {
        System::Lines525 => walk.lines / System525::LINE_COUNT,
        System::Lines625 => walk.lines / System625::LINE_COUNT,
    }
}

// How far a walk is, on one line of the terminal. The repairs of this field may grow shorter, so what stood behind them is cleared.
pub fn show(host: &mut Host, walk: Walk) {
    say(host, ERRORS, b"\rlines ", u64::from(walk.lines));
    say(host, ERRORS, b" pictures ", u64::from(pictures(walk)));
    say(host, ERRORS, b" repairs ", u64::from(walk.repairs));
    say(host, ERRORS, b" in this field ", u64::from(walk.tally));
    host.write_all(ERRORS, b"\x1b[K");
}

// The same in a loop that has so many turns left: at some of them, and where progress is shown.
pub fn show_turn(host: &mut Host, is_shown: bool, turns: u64, walk: Walk) {
    if is_shown && turns % TURNS_A_REPORT == 0 {
        show(host, walk);
    }
}

// Clears the line of progress.
pub fn end_show(host: &mut Host) {
    host.write_all(ERRORS, b"\r\x1b[K");
}

// The same behind such a loop, where progress is shown.
pub fn end_turns(host: &mut Host, is_shown: bool) {
    if is_shown {
        end_show(host);
    }
}

// How many turns a loop over the input has left after one of them: none where it is done. A proved loop has to end, and nothing says
// that the input does: the turns count down from a number that no input uses up.
pub fn turns_left(turns: u64, is_done: bool) -> u64
    requires { 0 < turns }
    ensures { result < turns }
{
    if is_done {
        return 0;
    }
    turns - 1
}

// Begins a message: whose it is, and of which recording. With no name it is standard input's.
pub fn say_of(host: &mut Host, verb: &[u8], name: &[u8]) {
    host.write_all(ERRORS, verb);
    host.write_all(ERRORS, b": ");
    say_name(host, ERRORS, name);
}

// Says that a recording, or standard input, could not be read, and why.
pub fn say_unread(host: &mut Host, verb: &[u8], name: &[u8]) {
    let what = if name.is_empty() { b"the input" } else { name };
    say_unopened(host, verb, what);
}

// Says that a file ended before the end that it had.
fn say_shortened(host: &mut Host, verb: &[u8], name: &[u8]) {
    say_of(host, verb, name);
    host.write_all(ERRORS, b" became shorter while it was read\n");
}

// Says that a recording could not be opened, and why.
pub fn say_unopened(host: &mut Host, verb: &[u8], name: &[u8]) {
    say_of(host, verb, name);
    host.fail(b" could not be read");
}

// Says that the output could not be written, and why.
pub fn say_unwritten(host: &mut Host, verb: &[u8]) {
    say_of(host, verb, b"");
    host.fail(b"the output could not be written");
}

// On a terminal, says what is waited for.
pub fn say_waits(host: &mut Host, verb: &[u8], what: &[u8]) {
    if host.is_terminal(INPUT) {
        say_of(host, verb, b"");
        host.write_all(ERRORS, b"waits for ");
        host.write_all(ERRORS, what);
        host.write_all(ERRORS, b" on standard input\n");
    }
}

// Whether standard output is a terminal, which is then said: no rows, lines or words are written there.
pub fn is_terminal_refused(host: &mut Host, verb: &[u8]) -> bool {
    if !host.is_terminal(OUTPUT) {
        return false;
    }
    say_of(host, verb, b"");
    host.write_all(
        ERRORS,
        b"standard output is a terminal: send it to a file or a pipe\n",
    );
    true
}
