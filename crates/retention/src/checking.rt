// `check`: whether all lines of a finished file are accepted and the index is theirs.
ghost use Rattle.std.specs.Prelude.{◌≡◌, Bool, Result};
ghost use Rattle.console.specs.declared.Status.{Status as Ends};
ghost use Rattle.retention.specs.declared.pieces.Parts.{Parts as PartsRead};
ghost use Rattle.retention.specs.Turn.{Answers, found_status, no_status, checked_status, exit_of};

use crate::carrying::{Carried, carry};
use crate::pieces::{Parts, read_end, read_index};
use crate::sink::{Index, Sink};
use crate::{File, exit};
use confirmation::Run;
use console::Status;
use finished::{Finishing, Meeting};
use host::{Host, OUTPUT};
use index::Question;
use refusal::{Reason, Refused};

fn print_theirs(host: &mut Host, finishing: Finishing) -> bool {
    let lines = finishing.run.walk.lines;
    console::say(host, OUTPUT, b"LINES ", u64::from(lines))
        & console::say(host, OUTPUT, b" UNCLEAN ", u64::from(finishing.entries))
        & host.write_all(
            OUTPUT,
            b": all lines are accepted and the index is theirs\n",
        )
}

fn print_difference(host: &mut Host, ordinal: u32) -> bool {
    console::say(host, OUTPUT, b"ordinal ", u64::from(ordinal))
        & host.write_all(OUTPUT, b": the index differs\n")
}

fn print_refusal(host: &mut Host, run: Run) -> bool {
    let walk = run.walk;
    console::say(host, OUTPUT, b"ordinal ", u64::from(walk.lines))
        & console::say(host, OUTPUT, b": line ", u64::from(walk.line))
        & console::say(host, OUTPUT, b" refused ", u64::from(run.number))
        & console::say(host, OUTPUT, b", place ", run.place as u64)
        & host.write_all(OUTPUT, b"\n")
}

fn print_finding(host: &mut Host, finishing: Finishing, meeting: Meeting) -> bool {
    let run = finishing.run;
    if finished::is_theirs(run, meeting) {
        return print_theirs(host, finishing);
    }
    if finished::differs_before(run, meeting) {
        return print_difference(host, meeting.ordinal);
    }
    print_refusal(host, run)
}

// Says what was found, and answers the exit status: 0 where the index is theirs.
fn tell(host: &mut Host, finishing: Finishing, meeting: Meeting) -> u32
    ensures { (written : Bool) × (result ≡ found_status finishing.run meeting written) }
{
    if !print_finding(host, finishing, meeting) {
        console::say_unwritten(host, b"check");
        return 2;
    }
    if finished::is_theirs(finishing.run, meeting) {
        0
    } else {
        1
    }
}

// Says why a file is refused, and answers the exit status.
fn refuse(host: &mut Host, name: &[u8], refused: Refused) -> u32
    ensures { result ≡ 2 }
{
    console::say_refused_file(host, b"check", name, refused.reason.number());
    2
}

// What was found of a file that is not theirs, whose whole index was read: where that is none, the file is refused.
fn tell_no(
    host: &mut Host,
    finishing: Finishing,
    meeting: Meeting,
    name: &[u8],
    question: Question,
) -> u32
    ensures { (written : Bool) × (result ≡ no_status finishing.run meeting question written) }
{
    match question.refusal() {
        Ok(()) => tell(host, finishing, meeting),
        Err(refused) => refuse(host, name, refused),
    }
}

// What was carried, with the first entry that is left of the index. What is theirs is refused nothing, so the whole index is looked at for that
// only where it is not.
fn end(
    host: &mut Host,
    carried: Carried,
    file: File,
    name: &[u8],
    parts: Parts,
) -> Result<u32, Status>
    ensures { (answers : Answers) × (read : Result PartsRead Ends) × (exit_of result ≡ checked_status carried read answers) }
{
    let finishing = carried.finishing;
    let meeting = carried.sink.end(host)?;
    if finished::is_theirs(finishing.run, meeting) {
        return Ok(tell(host, finishing, meeting));
    }
    let whole = read_index(host, file, parts)?;
    Ok(tell_no(host, finishing, meeting, name, whole.question))
}

// What refuses a file before its index is read: the numbers of its system and line, and a trailer that does not fit.
fn end_refusal(file: File, question: Question) -> Result<(), Refused> {
    system::named_refusal(file.system, file.start)?;
    if question.wrong {
        return Err(Reason::BadParts.at(0));
    }
    Ok(())
}

// Checks a file as far as it can be read.
fn check_read(host: &mut Host, file: File, name: &[u8]) -> Result<u32, Status> {
    let parts = read_end(host, file, 0, 0)?;
    if let Err(refused) = end_refusal(file, parts.question) {
        return Ok(refuse(host, name, refused));
    }
    let trailer = parts.trailer;
    let index = Index {
        file: file.number,
        offset: trailer.offset,
        left: 6 * u64::from(trailer.entries),
        meeting: Meeting::NONE,
    };
    let finishing = Finishing::of(Run::fresh(file.system, file.start));
    host.rewind(file.number);
    let sink = Sink::Checking(index);
    let carried = carry(host, file.number, finishing, sink, trailer.offset)?;
    end(host, carried, file, name, parts)
}

// The full check of a finished file, and the exit status: 0 where all lines are accepted and the index is theirs, 1 where not.
pub fn check(host: &mut Host, file: File, name: &[u8]) -> u32 {
    let came = check_read(host, file, name);
    exit(host, b"check", name, came)
}
