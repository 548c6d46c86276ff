// `unfinish`: a finished file's lines behind a header, as a recording.
use crate::pieces::{Part, copy, read_parts, written_status};
use crate::{File, exit};
use console::Status;
use host::{Host, OUTPUT};

fn put_recording(host: &mut Host, file: File, size: u64) -> Result<(), Status> {
    let fresh = system::fresh_walk(file.system, file.start);
    written_status(console::put_header(host, OUTPUT, fresh.walk))?;
    let lines = Part {
        file: file.number,
        end: size,
        size,
    };
    copy(host, lines, OUTPUT)
}

// Writes the recording back, as far as the file can be read, and answers the exit status.
fn unfinish_read(host: &mut Host, file: File, name: &[u8]) -> Result<u32, Status> {
    let parts = read_parts(host, file, 0, 0)?;
    if let Err(refused) = parts.question.refusal() {
        console::say_refused_file(host, b"unfinish", name, refused.reason.number());
        return Ok(2);
    }
    put_recording(host, file, parts.trailer.offset)?;
    Ok(0)
}

// Writes the recording that a finished file was made of to standard output, and answers the exit status.
pub fn unfinish(host: &mut Host, file: File, name: &[u8]) -> u32 {
    let came = unfinish_read(host, file, name);
    exit(host, b"unfinish", name, came)
}
