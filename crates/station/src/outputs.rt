// Where `record` writes: a recording on standard output, or a row of recordings in a folder.
ghost use Rattle.std.specs.Prelude.{◌≡◌, false, IsOk};
ghost use Rattle.programme.specs.Tape.{turns_at, turned_of, at_line};
ghost use Rattle.console.specs.declared.Status.TheVariants.{Failed};
ghost use Rattle.station.specs.Turns.{ended_of, Goes};

use crate::taping::{Output, Taping};
use crate::turning::{Ended, Turn, Turning};
use arrayvec::ArrayVec;
use console::Status;
use host::{ERRORS, Host};
use std::io::ErrorKind;

// Room for a recording's path.
const ROOM: usize = 4096;

// A tape whose recording begins here: its header is written.
fn begun(host: &mut Host, at: Taping) -> Turn<Taping, Status>
    ensures { Goes at.tape at.entries result }
{
    if console::put_header(host, at.output.file, at.tape.walk) {
        return Ok(at);
    }
    Err(at.ended(Status::Unwritten))
}

// A tape that ends because a folder or a recording could not be made, which is said with the system's reason.
fn unmade(host: &mut Host, name: &[u8], at: Taping) -> Ended<Taping, Status>
    ensures { result ≡ ended_of at Failed }
{
    console::say_of(host, b"record", name);
    host.fail(b" could not be made");
    at.ended(Status::Failed)
}

// One that ends because of what a folder holds, which is said. No call failed, so the system has no reason to say.
fn unfit(host: &mut Host, folder: &[u8], text: &[u8], at: Taping) -> Ended<Taping, Status>
    ensures { result ≡ ended_of at Failed }
{
    console::say_of(host, b"record", folder);
    host.write_all(ERRORS, text);
    at.ended(Status::Failed)
}

// Makes the recording of this number in the folder, for this tape.
fn make(host: &mut Host, folder: &[u8], piece: u32, at: Taping) -> Turn<Taping, Status>
    ensures { Goes at.tape at.entries result }
{
    let mut path = ArrayVec::<u8, ROOM>::new();
    match folder::make(host, folder, piece, &mut path) {
        Some(file) => {
            let output = Output {
                file,
                piece: Some(piece),
            };
            begun(host, Taping { output, ..at })
        }
        None => Err(unmade(host, path.as_slice(), at)),
    }
}

// The recording behind this one in the folder, which takes what is left of the tape.
fn make_next(host: &mut Host, folder: &[u8], at: Taping) -> Turn<Taping, Status>
    ensures { Goes (turned_of at.tape) at.entries result }
{
    if !host.close_written(at.output.file) {
        return Err(at.ended(Status::Unwritten));
    }
    let piece = at.output.piece.unwrap_or(0);
    if folder::MOST <= piece {
        return Err(unfit(
            host,
            folder,
            b" holds 9999 recordings, and no more can be numbered\n",
            at,
        ));
    }
    let tape = at.tape.turned();
    make(host, folder, piece + 1, Taping { tape, ..at })
}

// The tape at its next line: in the folder's next recording, where this one ends.
pub(crate) fn at_line(host: &mut Host, at: Taping, folder: &[u8]) -> Turn<Taping, Status>
    ensures on { Goes (at_line at.tape) at.entries result }
    ensures stays { turns_at at.tape ≡ false → IsOk result }
{
    if at.tape.turns() {
        return make_next(host, folder, at);
    }
    Ok(at)
}

// The first recording of a folder, which is made where it is not there and holds none yet.
fn make_first(host: &mut Host, folder: &[u8], at: Taping) -> Turn<Taping, Status> {
    if !host.make_folder(folder) && host.error() != ErrorKind::AlreadyExists {
        return Err(unmade(host, folder, at));
    }
    if folder::is_folder(host, folder) && folder::last(host, folder).is_some() {
        return Err(unfit(
            host,
            folder,
            b" holds recordings already: name another folder\n",
            at,
        ));
    }
    make(host, folder, 1, at)
}

// Where the first recording goes: to standard output, or into the folder, where one is named.
pub(crate) fn start(host: &mut Host, at: Taping, folder: &[u8]) -> Turn<Taping, Status> {
    if folder.len() == 0 {
        return begun(host, at);
    }
    make_first(host, folder, at)
}

// Closes the folder's last recording: what was written may fail as late as that.
pub(crate) fn close(host: &mut Host, ended: Ended<Taping, Status>) -> Ended<Taping, Status> {
    let output = ended.at.output;
    if output.piece.is_none() || ended.how.code() != 0 || host.close_written(output.file) {
        return ended;
    }
    ended.at.ended(Status::Unwritten)
}
