// `finish`: a recording's lines, their index and the trailer. The file has its name only once it is whole.
ghost use Rattle.std.specs.Prelude.{◌≡◌, Result};
ghost use Rattle.console.specs.declared.Status.{Status as Ends};
ghost use Rattle.retention.specs.Turn.{finished_status, status_of};

use crate::carrying::{Carried, carry};
use crate::failed;
use crate::pieces::{Part, copy, written_status};
use crate::sink::Sink;
use arrayvec::ArrayVec;
use confirmation::Run;
use console::{Read, Status};
use finished::Finishing;
use host::{ERRORS, Host, OUTPUT};
use index::TRAILER_LENGTH;
use std::io::ErrorKind;

// What a file that is being finished is called until it is whole, and one beside it, which has no name once it is open.
const UNFINISHED: &[u8] = b".part";

const BESIDE: &[u8] = b".XXXXXX";

// Room for a path.
const ROOM: usize = 4096;

// A name with an ending. One that is too long is cut, and longer than what the system opens.
fn path_of(name: &[u8], ending: &[u8]) -> ArrayVec<u8, ROOM> {
    let mut path = ArrayVec::new();
    console::put(&mut path, name);
    console::put(&mut path, ending);
    path
}

fn say_unmade(host: &mut Host, name: &[u8]) {
    console::say_of(host, b"finish", name);
    if host.error() == ErrorKind::AlreadyExists {
        host.write_all(
            ERRORS,
            b" is there already: remove it, or name another file\n",
        );
        return;
    }
    host.fail(b" could not be made");
}

// Says what was finished, on one line. True where all of it was written.
fn print_finished(host: &mut Host, finishing: Finishing) -> bool {
    let run = finishing.run;
    console::say(host, OUTPUT, b"SYSTEM ", u64::from(run.system))
        & console::say(host, OUTPUT, b" START ", u64::from(run.start))
        & console::say(host, OUTPUT, b" LINES ", u64::from(run.walk.lines))
        & console::say(host, OUTPUT, b" UNCLEAN ", u64::from(finishing.entries))
        & host.write_all(OUTPUT, b"\n")
}

// Writes the index behind the lines, and the trailer.
fn put_end(host: &mut Host, finishing: Finishing, file: i32, beside: i32) -> Result<(), Status> {
    let trailer = finishing.trailer();
    let size = 6 * u64::from(trailer.entries);
    let entries = Part {
        file: beside,
        end: size,
        size,
    };
    copy(host, entries, file)?;
    let mut bytes = [0u8; TRAILER_LENGTH];
    trailer.put(&mut bytes).unwrap();
    written_status(host.write_all(file, &bytes) && host.sync(file))
}

// The same, and closes the file.
fn put_whole(host: &mut Host, finishing: Finishing, file: i32, beside: i32) -> Result<(), Status> {
    let ended = put_end(host, finishing, file, beside);
    written_status(host.close(file))?;
    ended
}

// Ends a file whose lines were carried: its index and trailer are written where all lines were accepted. What was finished, or the exit status.
fn end(
    host: &mut Host,
    carried: Result<Carried, Status>,
    file: i32,
    beside: i32,
    name: &[u8],
) -> Result<Finishing, u32>
    ensures { (ends : Result (Unit {0}) Ends) × (status_of result ≡ finished_status carried ends) }
{
    let finishing = match carried {
        Ok(carried) => carried.finishing,
        Err(status) => return Err(failed(host, b"finish", name, status)),
    };
    let run = finishing.run;
    if run.number != 0 {
        console::say_refused(host, b"finish", name, run.outcome());
        return Err(1);
    }
    match put_whole(host, finishing, file, beside) {
        Ok(()) => Ok(finishing),
        Err(status) => Err(failed(host, b"finish", b"", status)),
    }
}

// Makes a file whose name is gone at once: it goes with the process.
fn make_unnamed(host: &mut Host, name: &[u8]) -> Option<i32> {
    let mut path = path_of(name, BESIDE);
    let file = host.create_temporary(path.as_mut_slice())?;
    host.remove(path.as_slice());
    Some(file)
}

// Writes a file, by way of one beside it for its entries. What was finished, or the exit status.
fn finish_lines(
    host: &mut Host,
    input: i32,
    run: Run,
    name: &[u8],
    file: i32,
    finished: &[u8],
) -> Result<Finishing, u32> {
    let Some(beside) = make_unnamed(host, finished) else {
        say_unmade(host, finished);
        return Err(2);
    };
    let sink = Sink::Finishing { file, beside };
    let carried = carry(host, input, Finishing::of(run), sink, u64::MAX);
    let ended = end(host, carried, file, beside, name);
    host.close(beside);
    ended
}

// Removes what was made of a file that could not be finished.
fn remove(host: &mut Host, unfinished: &[u8], finished: &[u8]) {
    host.remove(unfinished);
    host.remove(finished);
}

// Gives a whole file its name, and says what was finished. Answers the exit status.
fn name_whole(
    host: &mut Host,
    ended: Result<Finishing, u32>,
    unfinished: &[u8],
    finished: &[u8],
) -> u32
    ensures { result ≡ 0 → status_of ended ≡ 0 }
{
    let finishing = match ended {
        Ok(finishing) => finishing,
        Err(status) => {
            remove(host, unfinished, finished);
            return status;
        }
    };
    if !host.rename(unfinished, finished) {
        say_unmade(host, finished);
        remove(host, unfinished, finished);
        return 2;
    }
    if !print_finished(host, finishing) {
        console::say_unwritten(host, b"finish");
        return 2;
    }
    0
}

// Finishes a run's lines by way of a file that has another name until it is whole.
fn finish_run(host: &mut Host, input: i32, run: Run, name: &[u8], finished: &[u8]) -> u32 {
    let path = path_of(finished, UNFINISHED);
    let unfinished = path.as_slice();
    let Some(file) = host.create(unfinished) else {
        say_unmade(host, unfinished);
        host.remove(finished);
        return 2;
    };
    let ended = finish_lines(host, input, run, name, file, finished);
    name_whole(host, ended, unfinished, finished)
}

// Whether the name of a file that is to be made is free. It is taken here, by an empty file, until the whole one has it.
fn is_free(host: &mut Host, finished: &[u8]) -> bool {
    match host.create(finished) {
        Some(file) => {
            host.close(file);
            true
        }
        None => {
            say_unmade(host, finished);
            false
        }
    }
}

// Finishes a recording whose header was read, and answers the exit status. Nothing is left of a file that could not be finished.
pub fn finish(host: &mut Host, input: i32, begun: Read, name: &[u8], finished: &[u8]) -> u32 {
    let Read { run, status } = begun;
    if !matches!(status, Status::Done | Status::Refused) {
        return failed(host, b"finish", name, status);
    }
    if run.number != 0 {
        console::say_refused(host, b"finish", name, run.outcome());
        return 1;
    }
    if !is_free(host, finished) {
        return 2;
    }
    finish_run(host, input, run, name, finished)
}
