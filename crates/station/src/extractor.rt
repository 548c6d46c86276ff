// `extract`: a recording in, the v210 rows of its V = 0 lines out, and the packets of its lines beside them; and `packets`, which lists those.
ghost use Rattle.std.specs.Prelude.{◌≡◌, ◌≤◌, Bool, length};
ghost use Rattle.programme.specs.Extraction.{extraction_of};
ghost use Rattle.station.specs.Turns.{unpacked, row_turn, extracted_turn, extract_turn, extracted_read};

use crate::sidecar::Sidecar;
use crate::turning::{Turn, Turning, take_turns};
use confirmation::Run;
use console::{Read, Status};
use host::{Host, OUTPUT};
use intake::Filled;
use system::{Figures, System625};

// The confirming program's run over the lines, and what is kept beside the rows.
#[derive(Clone, Copy)]
struct Extracting {
    run: Run,
    sidecar: Sidecar,
}

impl Turning for Extracting {
    fn show(self, host: &mut Host, is_shown: bool, turns: u64) {
        console::show_turn(host, is_shown, turns, self.run.walk);
    }
}

// What a recording came to, and what is kept beside its rows.
#[derive(Clone, Copy)]
pub struct Extracted {
    pub read: Read,
    pub sidecar: Sidecar,
}

// How extracting ends where packets could not be put: the output failed that lists them, or the file, which is said by its name.
fn unpacked_status(sidecar: Sidecar) -> Status
    ensures { result ≡ unpacked sidecar }
{
    if sidecar.are_listed() {
        return Status::Unwritten;
    }
    Status::Failed
}

// Writes a row, where it is to be written.
fn put_row(host: &mut Host, at: Extracting, writes: bool, row: &[u8]) -> Turn<Extracting, Status>
    ensures { (written : Bool) × (result ≡ row_turn at writes written) }
{
    if !writes || host.write_all(OUTPUT, row) {
        return Ok(at);
    }
    Err(at.ended(Status::Unwritten))
}

// The run after a line's bytes, or what is left at the end, as `programme` decides; the packets that they have are put, and the row that they
// give is written.
fn put_line(
    host: &mut Host,
    at: Extracting,
    bytes: &[u8],
    row: &mut [u8],
) -> Turn<Extracting, Status>
    ensures { (packed : Bool) × (written : Bool) × (result ≡ extracted_turn (extraction_of at.run bytes.now (length row.old)) at.sidecar packed written) }
{
    let extraction = programme::extract_next(at.run, bytes, row);
    let run = extraction.run;
    if run.number != 0 {
        return Err(Extracting { run, ..at }.ended(Status::Refused));
    }
    let next = Extracting {
        run,
        sidecar: at.sidecar.behind(extraction.packets),
    };
    if !at.sidecar.put(host, at.run.walk, bytes, extraction.packets) {
        return Err(next.ended(unpacked_status(at.sidecar)));
    }
    put_row(host, next, extraction.gives & !at.sidecar.are_listed(), row)
}

// What a turn makes of what was filled of a line.
#[tactic(auto, unfolding(crate::specs::Turns::extract_turn))]
fn turned(
    host: &mut Host,
    at: Extracting,
    filled: Filled,
    line: &[u8],
    row: &mut [u8],
) -> Turn<Extracting, Status>
    requires { filled.have ≤ length line.now }
    ensures { (packed : Bool) × (written : Bool) × (result ≡ extract_turn at filled line.now (length row.old) packed written) }
{
    if filled.failed {
        return Err(at.ended(Status::Unread));
    }
    if filled.have == 0 {
        return Err(at.ended(Status::Done));
    }
    put_line(host, at, &line[..filled.have], row)
}

// Takes one line of the input.
fn take_line(
    host: &mut Host,
    input: i32,
    at: Extracting,
    line: &mut [u8],
    row: &mut [u8],
) -> Turn<Extracting, Status> {
    let filled = console::fill(host, input, line);
    turned(host, at, filled, line, row)
}

// What extracting comes to: unread where it did not come to an end.
fn come_to(came: Turn<Extracting, Status>) -> Read
    ensures { result ≡ extracted_read came }
{
    match came {
        Ok(at) => Read::unread(at.run),
        Err(ended) => Read {
            run: ended.at.run,
            status: ended.how,
        },
    }
}

// Says that the packets file could not be written, where it could not.
fn say_unpacked(host: &mut Host, status: Status, packets: &[u8]) {
    if matches!(status, Status::Failed) {
        console::say_of(host, b"extract", packets);
        host.fail(b" could not be written");
    }
}

// Writes the rows of a recording whose header was read, to standard output, up to its end or its first refusal, with the packets of its lines
// to the packets file of this name, where there is one; or lists these.
pub fn extract(
    host: &mut Host,
    input: i32,
    run: Run,
    sidecar: Sidecar,
    packets: &[u8],
) -> Extracted {
    if run.number != 0 {
        return Extracted {
            read: Read::ended(run),
            sidecar,
        };
    }
    let mut room = [0u8; 2 * System625::LINE_LENGTH];
    let mut row = [0u8; v210::ROW_LENGTH];
    let line = &mut room[..run.walk.line_bytes()];
    let came = take_turns(host, Extracting { run, sidecar }, |host, at| {
        take_line(host, input, at, line, &mut row)
    });
    let read = come_to(came);
    say_unpacked(host, read.status, packets);
    let sidecar = match came {
        Ok(at) => at.sidecar,
        Err(ended) => ended.at.sidecar,
    };
    Extracted { read, sidecar }
}
