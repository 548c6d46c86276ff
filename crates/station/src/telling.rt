// What `record` says of how it ended.
use crate::entries::{Entries, Next};
use crate::taping::Taping;
use crate::turning::Ended;
use console::Status;
use host::{ERRORS, Host};
use programme::Tape;
use refusal::Reason;
use std::num::wrapping_sub_u32;
use system::{Figures, System, System525};

fn say(host: &mut Host, text: &[u8]) -> bool {
    host.write_all(ERRORS, text)
}

// What is wrong with a length: the row's, or, by its place, that of a space's packets.
fn words_of_length(place: usize) -> &'static [u8] {
    match place {
        4 => b"more packet words than the space between EAV and SAV holds\n",
        5 => b"more packet words than the active part holds, or any where V is 0\n",
        _ => b"the last row is short\n",
    }
}

// What is wrong with a word over its bits: on a line with packets it may be the row's or theirs.
fn words_of_over(has_packets: bool) -> &'static [u8] {
    if has_packets {
        return b"spare bits are set in a word of the row, or a packet word is over 1023\n";
    }
    b"spare bits are set in a word of the row\n"
}

// A refusal of a tape in words, by its number: that is what `Tape` holds.
fn words_of(number: u32, place: usize, has_packets: bool) -> &'static [u8] {
    match number {
        1 => b"the system is neither 525 nor 625\n",
        2 => b"the start line is not one of the system, or --fall of 525 is not 10 to 20\n",
        3 => words_of_length(place),
        4 => b"10000000 lines are written, and --into FOLDER would go on in a next file\n",
        5 => words_of_over(has_packets),
        10 => b"no packet starts there\n",
        11 => b"a reserved word stands where a user word is due\n",
        15 => b"a header word of a packet has bad parity\n",
        16 => b"a packet's checksum is wrong\n",
        17 => b"a packet runs past its space\n",
        _ => b"a sample is outside 4 to 1019\n",
    }
}

// Says which refusal ended a tape at its awaited line.
fn say_refused(host: &mut Host, tape: Tape, has_packets: bool) {
    console::say(host, ERRORS, b"record: refused ", u64::from(tape.number));
    console::say_place(host, tape.walk.line, tape.place);
    say(host, words_of(tape.number, tape.place, has_packets));
}

// Says which entry of the packets file was refused, and why: its line is not written, or it is none.
fn say_entry(host: &mut Host, packets: &[u8], entries: Entries) {
    console::say_of(host, b"record", packets);
    console::say(
        host,
        ERRORS,
        b": refused 22: the entry at byte ",
        entries.at,
    );
    if let Next::Told(entry) = entries.next {
        console::say(host, ERRORS, b" is for the line of ordinal ", entry.ordinal);
        say(host, b", which is not written\n");
        return;
    }
    say(
        host,
        b" is cut, has a line, a space or words that cannot be, or does not rise\n",
    );
}

// Where V falls in the frames of 525 that a tape may be compared with: its own, and the table's where it is of 625.
fn fall_in_525(tape: Tape) -> u32 {
    match system::system_of(tape.walk.system) {
        System::Lines525 => tape.fall,
        System::Lines625 => System525::LAST_FALL,
    }
}

// How many rows a frame of 525 has: one for each line but those of both fields before V falls. A tape that began falls at 10 to 20.
fn frame_rows(fall: u32) -> u32 {
    let before = wrapping_sub_u32(fall, 1);
    wrapping_sub_u32(wrapping_sub_u32(System525::LINE_COUNT, before), before)
}

// Says that the rows ended inside a frame.
fn say_part(host: &mut Host, tape: Tape) {
    let walk = tape.walk;
    console::say(
        host,
        ERRORS,
        b"record: the last frame is not whole: line ",
        u64::from(walk.line),
    );
    console::say(host, ERRORS, b" of ", u64::from(walk.system));
    console::say(
        host,
        ERRORS,
        b" is awaited (a frame of 525 has ",
        u64::from(frame_rows(fall_in_525(tape))),
    );
    say(host, b" rows, one of 625 has 576)\n");
}

// Says where a tape that ended well did so inside a frame.
fn say_end(host: &mut Host, status: Status, tape: Tape) {
    let walk = tape.walk;
    if status.code() == 0 && walk.lines != 0 && walk.line != 1 {
        say_part(host, tape);
    }
}

// Says which refusal ended a tape, if one did.
fn say_refusal(host: &mut Host, at: Taping, packets: &[u8]) {
    if at.tape.number == Reason::BadEntry.number() {
        say_entry(host, packets, at.entries);
    } else if at.tape.number != 0 {
        say_refused(host, at.tape, packets.len() != 0);
    }
}

// Says what the system failed in: where it was the packets file, that is named.
fn say_failure(host: &mut Host, ended: Ended<Taping, Status>, packets: &[u8]) {
    if ended.at.entries.is_lost() {
        ended.how.say_failure(host, b"record", packets);
        return;
    }
    ended.how.say_failure(host, b"record", b"");
}

// Says why a tape ended before its input did, or that it ended inside a frame, and answers the exit status.
pub(crate) fn tell(host: &mut Host, ended: Ended<Taping, Status>, packets: &[u8]) -> u32 {
    say_refusal(host, ended.at, packets);
    say_failure(host, ended, packets);
    say_end(host, ended.how, ended.at.tape);
    ended.how.code()
}

// Says that the packets file could not be read, and what it is.
pub(crate) fn say_no_packets(host: &mut Host, packets: &[u8]) {
    console::say_unopened(host, b"record", packets);
    say(
        host,
        b"record: --packets takes a packets file, as extract --packets writes one\n",
    );
}
