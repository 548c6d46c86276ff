// `scramble` and `descramble`: words in, coded or decoded words out.
ghost use Rattle.std.specs.Prelude.{◌≡◌, ◌/◌, ◌≤◌, true, length, Err};
ghost use Rattle.station.specs.declared.coder.End.TheVariants.{Unread};
ghost use Rattle.station.specs.Turns.{coded_status};

use crate::turning::{Ended, Turn, Turning, take_turns};
use console::Status;
use host::{ERRORS, Host, INPUT, OUTPUT};
use intake::Filled;
use refusal::Reason;
use serial::{Returned, State};
use std::num::wrapping_add_u64;

// What a serial call takes at most, in words.
const PIECE: usize = 65536;

// How many pieces pass between two reports of progress.
const PIECES_A_REPORT: u64 = 64;

// What a verb does to words.
trait Coding {
    fn turn(state: State, words: &[u16], out: &mut [u16]) -> Result<State, Returned>;
}

struct Scrambling;

impl Coding for Scrambling {
    fn turn(state: State, words: &[u16], out: &mut [u16]) -> Result<State, Returned> {
        serial::code(state, words, out)
    }
}

struct Descrambling;

impl Coding for Descrambling {
    fn turn(state: State, words: &[u16], out: &mut [u16]) -> Result<State, Returned> {
        serial::decode(state, words, out)
    }
}

// What ends a stream: the end of its input, a word over its bits, half a word at the end, or what the system failed in.
#[derive(Clone, Copy)]
enum End {
    Input,
    Over,
    Half,
    Unread,
    Unwritten,
}

impl End {
    // How it is told.
    fn status(self) -> Status
        ensures { result ≡ coded_status self }
    {
        match self {
            End::Input => Status::Done,
            End::Over | End::Half => Status::Refused,
            End::Unread => Status::Unread,
            End::Unwritten => Status::Unwritten,
        }
    }
}

// The state after so many words.
#[derive(Clone, Copy)]
struct Stream {
    state: State,
    words: u64,
}

impl Stream {
    // One of which nothing is read yet.
    fn fresh() -> Stream {
        Stream {
            state: State::fresh(),
            words: 0,
        }
    }

    // The same behind words that were coded or decoded.
    fn behind(self, turned: Turned) -> Stream {
        Stream {
            state: turned.state,
            words: wrapping_add_u64(self.words, turned.good as u64),
        }
    }
}

impl Turning for Stream {
    fn show(self, host: &mut Host, is_shown: bool, turns: u64) {
        if is_shown && turns % PIECES_A_REPORT == 0 {
            console::say(host, ERRORS, b"\rwords ", self.words);
        }
    }
}

// The state after the words that were good: all of them, or those before the first that is refused.
#[derive(Clone, Copy)]
struct Turned {
    state: State,
    good: usize,
}

// Codes or decodes words up to the first that is refused.
fn turn_good<C: Coding>(state: State, words: &[u16], out: &mut [u16]) -> Turned
    requires { length out.old ≡ length words.now }
    ensures { result.good ≤ length words.now }
{
    let refused = match C::turn(state, words, out) {
        Ok(state) => return Turned {
            state,
            good: words.len(),
        },
        Err(returned) => returned.refused,
    };
    let good = refused.place.min(words.len());
    let state = match C::turn(state, &words[0..good], &mut out[0..good]) {
        Ok(state) => state,
        Err(returned) => returned.state,
    };
    Turned { state, good }
}

// Room for one piece of the input: its bytes, its words, and what they are coded or decoded to.
#[derive(Drop)]
struct Room {
    bytes: [u8; 2 * PIECE],
    words: [u16; PIECE],
    out: [u16; PIECE],
}

impl Room {
    fn new() -> Room {
        Room {
            bytes: [0; 2 * PIECE],
            words: [0; PIECE],
            out: [0; PIECE],
        }
    }

    // Codes or decodes so many words of the bytes that were read, up to the first that is refused.
    fn turn<C: Coding>(&mut self, state: State, count: usize) -> Turned
        requires { count ≤ 65536 }
        ensures { result.good ≤ count }
    {
        let Room { bytes, words, out } = self;
        words::to_words(&bytes[0..2 * count], &mut words[0..count]).unwrap();
        turn_good::<C>(state, &words[0..count], &mut out[0..count])
    }

    // Writes so many coded or decoded words. True where all of them were written.
    fn write(&mut self, host: &mut Host, count: usize) -> bool
        requires { count ≤ 65536 }
    {
        let Room { bytes, out, .. } = self;
        words::to_bytes(&out[0..count], &mut bytes[0..2 * count]).unwrap();
        host.write_all(OUTPUT, &bytes[0..2 * count])
    }
}

// What a stream comes to where so many bytes of it are read: its words are coded or decoded, and the good ones are written.
fn put_words<C: Coding>(
    host: &mut Host,
    stream: Stream,
    have: usize,
    room: &mut Room,
) -> Turn<Stream, End>
    requires { have / 2 ≤ 65536 }
{
    let count = have / 2;
    let turned = room.turn::<C>(stream.state, count);
    let next = stream.behind(turned);
    if !room.write(host, turned.good) {
        return Err(next.ended(End::Unwritten));
    }
    if turned.good < count {
        return Err(next.ended(End::Over));
    }
    if have % 2 == 1 {
        return Err(next.ended(End::Half));
    }
    Ok(next)
}

// What a turn makes of what was filled of a piece. A failed read is not the end of the input.
fn take_filled<C: Coding>(
    host: &mut Host,
    stream: Stream,
    filled: Filled,
    room: &mut Room,
) -> Turn<Stream, End>
    requires { filled.have / 2 ≤ 65536 }
    ensures { filled.failed ≡ true → result ≡ Err (record { at = stream; how = Unread }) }
{
    if filled.failed {
        return Err(stream.ended(End::Unread));
    }
    if filled.have == 0 {
        return Err(stream.ended(End::Input));
    }
    put_words::<C>(host, stream, filled.have, room)
}

// Takes one piece of the input.
fn take_piece<C: Coding>(host: &mut Host, stream: Stream, room: &mut Room) -> Turn<Stream, End> {
    let filled = console::fill(host, INPUT, &mut room.bytes);
    take_filled::<C>(host, stream, filled, room)
}

fn say_refused(host: &mut Host, verb: &[u8], reason: Reason, word: u64, why: &[u8]) {
    console::say_of(host, verb, b"");
    console::say(host, ERRORS, b"refused ", u64::from(reason.number()));
    console::say(host, ERRORS, b", word ", word);
    host.write_all(ERRORS, why);
}

// Says why a stream ended before its input did, and answers the exit status.
fn tell(host: &mut Host, verb: &[u8], ended: Ended<Stream, End>) -> u32 {
    let words = ended.at.words;
    match ended.how {
        End::Over => say_refused(host, verb, Reason::Over, words, b": it is over 1023\n"),
        End::Half => say_refused(
            host,
            verb,
            Reason::WrongLength,
            words,
            b": half a word is left\n",
        ),
        _ => {}
    }
    let status = ended.how.status();
    status.say_failure(host, verb, b"");
    status.code()
}

fn code_by<C: Coding>(host: &mut Host, verb: &[u8]) -> u32 {
    let mut room = Room::new();
    let came = take_turns(host, Stream::fresh(), |host, at| {
        take_piece::<C>(host, at, &mut room)
    });
    match came {
        Ok(at) => tell(host, verb, at.ended(End::Input)),
        Err(ended) => tell(host, verb, ended),
    }
}

// Codes or decodes standard input to standard output, and answers the exit status. `code_input` takes a bool, which picks the type here alone.
pub fn code_input(host: &mut Host, verb: &[u8], is_coding: bool) -> u32 {
    if is_coding {
        return code_by::<Scrambling>(host, verb);
    }
    code_by::<Descrambling>(host, verb)
}
