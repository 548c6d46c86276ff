// A part of a file, piece by piece: its index, which a question is fed, or bytes that are copied.
ghost use Rattle.std.specs.Prelude.{◌≡◌, ◌≤◌, length};
ghost use Rattle.finished.specs.Check.{lower};
ghost use Rattle.retention.specs.Pieces.{filled_status, written_status};

use crate::File;
use console::Status;
use host::Host;
use index::{Question, TRAILER_LENGTH, Trailer};
use intake::Filled;

// A finished file's trailer, and the question of its index.
#[derive(Clone, Copy)]
pub(crate) struct Parts {
    pub(crate) trailer: Trailer,
    pub(crate) question: Question,
}

// A part of a file: the offset behind its last byte, and how many bytes it has.
#[derive(Clone, Copy)]
pub(crate) struct Part {
    pub(crate) file: i32,
    pub(crate) end: u64,
    pub(crate) size: u64,
}

// How reading ended that filled so much where so much was due: a file that ends before became shorter, since its length was asked for.
#[tactic(auto, unfolding(crate::specs::Pieces::filled_status))]
pub(crate) fn filled_status(filled: Filled, due: usize) -> Result<(), Status>
    ensures { result ≡ filled_status filled due }
{
    if filled.failed {
        return Err(Status::Unread);
    }
    if filled.have < due {
        return Err(Status::Shortened);
    }
    Ok(())
}

// How writing ended.
pub(crate) fn written_status(is_written: bool) -> Result<(), Status>
    ensures { result ≡ written_status is_written }
{
    if is_written {
        Ok(())
    } else {
        Err(Status::Unwritten)
    }
}

// The lower of two sizes.
pub(crate) fn least(wide: u64, size: usize) -> usize
    ensures is { result ≡ lower size wide }
    ensures within { (result ≤ size) × (result ≤ wide) × (1 ≤ wide → 1 ≤ size → 1 ≤ result) }
{
    wide.min(size as u64) as usize
}

// Reads a part of a file piece by piece, and hands each on.
fn each_piece<F: FnMut(&mut Host, &[u8]) -> Result<(), Status>>(
    host: &mut Host,
    part: Part,
    mut take: F,
) -> Result<(), Status>
    requires { F.IsAlwaysCallable take }
{
    let mut buffer = io::large_buffer();
    let mut left = part.size;
    while left > 0 {
        let size = least(left, buffer.len());
        let offset = part.end.wrapping_sub(left);
        let filled = console::fill_at(host, part.file, offset, &mut buffer[..size]);
        filled_status(filled, size)?;
        take(host, &buffer[..size])?;
        left -= size as u64;
    }
    Ok(())
}

// Copies a part of a file.
pub(crate) fn copy(host: &mut Host, part: Part, output: i32) -> Result<(), Status> {
    each_piece(host, part, |host, bytes| {
        written_status(host.write_all(output, bytes))
    })
}

// Feeds a question a part of a file.
fn feed(host: &mut Host, part: Part, first: Question) -> Result<Question, Status> {
    let mut question = first;
    each_piece(host, part, |_, bytes| {
        question = question.feed(bytes);
        Ok(())
    })?;
    Ok(question)
}

// Parts behind the whole index. Of an index whose trailer does not fit nothing is read.
pub(crate) fn read_index(host: &mut Host, file: File, parts: Parts) -> Result<Parts, Status> {
    let question = parts.question;
    if question.wrong {
        return Ok(parts);
    }
    let trailer = parts.trailer;
    let part = Part {
        file: file.number,
        end: trailer.offset.wrapping_add(question.left),
        size: question.left,
    };
    Ok(Parts {
        trailer,
        question: feed(host, part, question)?,
    })
}

// The parts of a finished file as far as its trailer tells them, for lines a to b.
pub(crate) fn read_end(host: &mut Host, file: File, a: u32, b: u32) -> Result<Parts, Status> {
    let length = host.seek_end(file.number).ok_or(Status::Unread)?;
    let mut room = [0u8; TRAILER_LENGTH];
    let due = least(length, room.len());
    let filled = console::fill_at(host, file.number, length - due as u64, &mut room[..due]);
    filled_status(filled, due)?;
    let trailer = &room[..due];
    Ok(Parts {
        trailer: Trailer::of(trailer),
        question: Question::begin(file.system, file.start, trailer, length, a, b),
    })
}

// The parts of a finished file, for lines a to b.
pub(crate) fn read_parts(host: &mut Host, file: File, a: u32, b: u32) -> Result<Parts, Status> {
    let end = read_end(host, file, a, b)?;
    read_index(host, file, end)
}
