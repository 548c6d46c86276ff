// Refusals of a recording, in words.
use crate::{say, say_of};
use confirmation::Outcome;
use host::{ERRORS, Host};

// Why a recording was refused, by the refusal's number, which is what an outcome has.
fn reason(number: u32) -> &'static [u8] {
    match number {
        1 => b"the system is neither 525 nor 625\n",
        2 => b"the start line is not one of the system\n",
        3 => b"the recording ends inside a line\n",
        4 => b"it goes on after 10000000 lines\n",
        5 => b"a word is over 1023\n",
        6 => b"one of the first three words of a timing code is wrong\n",
        7 => b"bit 9 of a fourth word is 0\n",
        8 =>
            b"a timing code has no legal code within one inverted bit, and an even number of ones\n",
        9 => b"a timing code is not the one due here\n",
        10 => b"fill is due and is not there\n",
        11 => b"a reserved word stands where a sample or a user word is due\n",
        14 =>
            b"a timing code has no legal code within one inverted bit, and an odd number of ones\n",
        15 => b"a header word of a packet has bad parity\n",
        16 => b"a packet's checksum is wrong\n",
        17 => b"a packet runs past its space\n",
        19 => b"the parts of the file do not fit, or its index is none\n",
        20 => b"the file has not these lines\n",
        _ => b"no reading gives this number\n",
    }
}

// Says where something was refused.
pub fn say_place(host: &mut Host, line: u32, place: usize) {
    say(host, ERRORS, b", line ", u64::from(line));
    say(host, ERRORS, b", place ", place as u64);
    host.write_all(ERRORS, b": ");
}

// Says why a recording was refused. With no name it is standard input's.
pub fn say_refused(host: &mut Host, verb: &[u8], name: &[u8], outcome: Outcome) {
    say_of(host, verb, name);
    if !name.is_empty() {
        host.write_all(ERRORS, b": ");
    }
    say(host, ERRORS, b"refused ", u64::from(outcome.number));
    say_place(host, outcome.line, outcome.place);
    host.write_all(ERRORS, reason(outcome.number));
}

// Says why a finished file, or a question of it, was refused.
pub fn say_refused_file(host: &mut Host, verb: &[u8], name: &[u8], number: u32) {
    say_of(host, verb, name);
    say(host, ERRORS, b": refused ", u64::from(number));
    host.write_all(ERRORS, b": ");
    host.write_all(ERRORS, reason(number));
}
