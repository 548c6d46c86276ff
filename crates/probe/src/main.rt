// Every public call, asked by cases on standard input and answered on standard output, so that another program can compare.
// A case is its kind and the size of its payload, both of 32 bits, then the payload. Answers follow one another with no header.
// A case that is none ends the program.
#![tactic(auto)]

ghost use Rattle.std.specs.Prelude.{◌≡◌, ◌+◌, ◌≤◌, length};

use cases::{count, number};
use host::{Host, INPUT, OUTPUT};

// No answer is longer than the coder's: four numbers and its output.
const LONGEST_ANSWER: usize = 16 + 2 * line_cases::LONGEST;

const HEADER: usize = 8;

const BUFFER: usize = 524_288;

// The kinds from this one on are calls on bytes.
const FIRST_ON_BYTES: u32 = 60;

// The bytes at..have of the input are read and not answered yet; the first bytes of the output, `told` of them, are not written yet.
#[derive(Clone, Copy)]
struct Stream {
    at: usize,
    have: usize,
    told: usize,
    is_open: bool,
}

// Answers one case, and tells how many bytes the answer takes: 0 where the case is none, and more than there is room for where it
// does not fit.
fn answer_case(case: &[u8], answer: &mut [u8]) -> usize {
    if case.len() < HEADER {
        return 0;
    }
    let payload = &case[HEADER..];
    let kind = number(case, 0);
    if kind < FIRST_ON_BYTES {
        return line_cases::answer_case(kind, payload, answer);
    }
    recording_cases::answer_case(kind, payload, answer)
}

// How many bytes the case at the start of these takes with its header: 0 where they do not hold the whole case yet.
fn whole_case(bytes: &[u8]) -> usize
    ensures { result ≤ length bytes.now }
{
    if bytes.len() < HEADER {
        return 0;
    }
    let size = count(bytes, 4);
    if bytes.len() - HEADER < size {
        return 0;
    }
    HEADER + size
}

// Writes what was told where the longest answer might not fit behind it, and tells what is left to write.
fn make_room(host: &mut Host, output: &[u8], told: usize) -> usize
    requires { told ≤ length output.now }
    ensures { result ≤ length output.now }
{
    if LONGEST_ANSWER <= output.len() - told {
        return told;
    }
    host.write_all(OUTPUT, &output[0..told]);
    0
}

// Moves the bytes from..to of the input to its front.
fn carry(from: usize, to: usize, input: &mut [u8])
    requires from_le_to { from ≤ to }
    requires to_in_bounds { to ≤ length input.old }
{
    for k in from..to {
        input[k - from] = input[k];
    }
}

// Reads more behind what is not answered yet. At the end of the input the stream is closed.
fn refill(host: &mut Host, stream: Stream, input: &mut [u8]) -> Stream
    requires { (stream.at ≤ stream.have) × (stream.have ≤ length input.old) }
    ensures { (result.at ≤ result.have) × (result.have ≤ length input.new) × (result.told ≡ stream.told) }
{
    let left = stream.have - stream.at;
    carry(stream.at, stream.have, input);
    let got = host.read(INPUT, &mut input[left..]);
    let more = io::count(got, &input[left..]);
    Stream {
        at: 0,
        have: left + more,
        told: stream.told,
        is_open: 0 < more,
    }
}

// The stream after a case of so many bytes, with an answer of so many behind what was told. No answer, and one for which the output
// has no room, closes it.
fn passed(stream: Stream, size: usize, told: usize, more: usize, room: usize) -> Stream
    requires { (stream.at + size ≤ stream.have) × (told ≤ room) }
    ensures { (result.at ≤ result.have) × (result.have ≡ stream.have) × (result.told ≤ room) }
{
    let next = stream.at + size;
    if room - told < more {
        return Stream {
            at: next,
            have: stream.have,
            told,
            is_open: false,
        };
    }
    Stream {
        at: next,
        have: stream.have,
        told: told + more,
        is_open: 0 < more,
    }
}

// Answers the case that the input holds whole, or reads more.
fn turn(host: &mut Host, stream: Stream, input: &mut [u8], output: &mut [u8]) -> Stream
    requires { (stream.at ≤ stream.have) × (stream.have ≤ length input.old) × (stream.told ≤ length output.old) }
    ensures { (result.at ≤ result.have) × (result.have ≤ length input.new) × (result.told ≤ length output.new) }
{
    let at = stream.at;
    let have = stream.have;
    let size = whole_case(&input[at..have]);
    if size == 0 {
        return refill(host, stream, input);
    }
    let next = at + size;
    let told = make_room(host, output, stream.told);
    let more = answer_case(&input[at..next], &mut output[told..]);
    passed(stream, size, told, more, output.len())
}

// A proved loop has to end, and nothing says that the input does: the turns count down from a number that no run uses up.
fn run(host: &mut Host, input: &mut [u8], output: &mut [u8]) {
    let mut stream = Stream {
        at: 0,
        have: 0,
        told: 0,
        is_open: true,
    };
    let mut turns = u64::MAX;
    while 0 < turns && stream.is_open {
        stream = turn(host, stream, input, output);
        turns -= 1;
    }
    let told = stream.told;
    host.write_all(OUTPUT, &output[0..told]);
}

fn main(rt: HostRuntime) {
    let mut input = [0u8; BUFFER];
    let mut output = [0u8; BUFFER];
    let mut host = Host::new(rt);
    run(&mut host, &mut input, &mut output);
}
