// `record`: v210 rows, and packets beside them, in; a recording out, or a row of recordings in a folder.
ghost use Rattle.std.specs.Prelude.{◌≡◌, ◌≤◌, Bool, true, false, length, take, ◌≢◌, Ok, Err, IfOk, IfErr, IsErrAnd};
ghost use Rattle.programme.specs.Tape.{taped_of, bare_taped, nothing_more, onto, end_of, most_turns};
ghost use Rattle.console.specs.declared.Status.TheVariants.{Done, Unread};
ghost use Rattle.console.specs.Status.{code_of};
ghost use Rattle.station.specs.declared.entries.Next.TheVariants.{Nothing};
ghost use Rattle.station.specs.Entries.{next_line};
ghost use Rattle.station.specs.Turns.{taped_turn, ended_of, halted_of, may_follow, OnLine, Onto, FrameEnd};

use crate::entries::{Entries, Next, entries_of, no_entries};
use crate::outputs::{at_line, close, start};
use crate::taping::{STANDARD, Taping};
use crate::telling::{say_no_packets, tell};
use crate::turning::{Ended, Turn, Turning, take_turns};
use captions::MOST_WORDS;
use console::Status;
use host::{Host, INPUT};
use intake::Filled;
use programme::Tape;
use refusal::Reason;
use system::{Figures, System625};

// Writes the line that the tape awaits, of this row where its V is 0, with these ready packet words.
fn put_line(
    host: &mut Host,
    at: Taping,
    row: &[u8],
    between: &[u16],
    active: &[u16],
    line: &mut [u8],
) -> Turn<Taping, Status>
    ensures { (written : Bool) × (result ≡ taped_turn (taped_of at.tape row.now (record { between = between.entry.now; active = active.now }) (length line.old)) at.output (next_line at.entries) written) }
{
    let next = Taping {
        tape: at.tape.next(row, between, active, line),
        entries: at.entries.next_line(),
        ..at
    };
    if next.tape.number != 0 {
        return Err(next.ended(Status::Refused));
    }
    if host.write_all(next.output.file, line) {
        return Ok(next);
    }
    Err(next.ended(Status::Unwritten))
}

// A tape that its packets file ends: a read of it failed, or what comes next there is refused with 22.
fn halted(at: Taping) -> Ended<Taping, Status>
    ensures { result ≡ halted_of at }
{
    if at.entries.is_lost() {
        return at.ended(Status::Unread);
    }
    let tape = Tape {
        number: Reason::BadEntry.number(),
        place: 0,
        ..at.tape
    };
    Taping { tape, ..at }.ended(Status::Refused)
}

// Writes the awaited line with the packets that the next entries have for it.
fn put_packets(host: &mut Host, at: Taping, row: &[u8], line: &mut [u8]) -> Turn<Taping, Status>
    ensures { OnLine at row.now (length line.old) result }
{
    let mut between = [0u16; MOST_WORDS];
    let mut active = [0u16; MOST_WORDS];
    match at.entries.take_line(host, &mut between, &mut active) {
        Ok(taken) => put_line(
            host,
            Taping {
                entries: taken.entries,
                ..at
            },
            row,
            &between[..taken.between],
            &active[..taken.active],
            line,
        ),
        Err(entries) => Err(halted(Taping { entries, ..at })),
    }
}

// Writes the awaited line, with its packets where the next entry is for it. What is no entry ends the tape.
fn put_due(host: &mut Host, at: Taping, row: &[u8], line: &mut [u8]) -> Turn<Taping, Status>
    ensures line { OnLine at row.now (length line.old) result }
    ensures bare { at.entries.next ≡ Nothing → (written : Bool) × (result ≡ taped_turn (bare_taped at.tape row.now (length line.old)) at.output (next_line at.entries) written) }
{
    match at.entries.next {
        Next::Told(entry) if entry.ordinal == at.entries.ordinal => {
            put_packets(host, at, row, line)
        }
        Next::Nothing | Next::Told(_) => put_line(host, at, row, &[], &[], line),
        Next::Bad | Next::Lost => Err(halted(at)),
    }
}

// Writes lines up to the one that takes the row.
fn put_row(
    host: &mut Host,
    first: Taping,
    row: &[u8],
    line: &mut [u8],
    folder: &[u8],
) -> Turn<Taping, Status>
    ensures row { IfOk result (λ r. Onto (length line.old) row.now most_turns first.tape r.tape) }
    ensures bare { first.entries.next ≡ Nothing → IfOk result (λ r. r.tape ≡ (onto (length line.old) most_turns first.tape row.now nothing_more).tape) }
{
    let mut taping = first;
    for _ in 0..System625::LINE_COUNT {
        let at = at_line(host, taping, folder)?;
        let is_taken = programme::takes_row(at.tape.walk, at.tape.fall);
        taping = put_due(host, at, row, line)?;
        if is_taken {
            return Ok(taping);
        }
    }
    Ok(taping)
}

// Writes the V = 1 lines up to the next line that takes a row or the end of the frame, as far as there may be lines.
fn end_frame(host: &mut Host, first: Taping, line: &mut [u8]) -> Turn<Taping, Status>
    ensures frame { IfOk result (λ r. FrameEnd (length line.old) most_turns first.tape r.tape) }
    ensures ended { IfErr result (λ e. code_of e.how ≢ 0) }
    ensures bare { first.entries.next ≡ Nothing → IfOk result (λ r. (r.entries.next ≡ Nothing) × (r.tape ≡ (end_of (length line.old) most_turns first.tape).tape)) }
{
    let mut at = first;
    for _ in 0..System625::LINE_COUNT {
        if !at.tape.ends() {
            return Ok(at);
        }
        at = put_due(host, at, &[], line)?;
    }
    Ok(at)
}

// Whether the awaited line may be written though no row is left: it takes none, and is in a next recording or within the limit.
fn may_follow(tape: Tape) -> bool
    ensures { result ≡ may_follow tape }
{
    tape.number == 0
        && !programme::takes_row(tape.walk, tape.fall)
        && (tape.turns() || tape.walk.refusal().is_ok())
}

// Writes V = 1 lines as far as entries are left. One whose line is not written is refused.
fn end_packets(
    host: &mut Host,
    first: Taping,
    line: &mut [u8],
    folder: &[u8],
) -> Turn<Taping, Status>
    ensures packets { IfOk result (λ r. r.entries.next ≡ Nothing) }
    ensures ended { IfErr result (λ e. code_of e.how ≢ 0) }
    ensures bare { first.entries.next ≡ Nothing → result ≡ Ok first }
{
    let mut at = first;
    for _ in 0..System625::LINE_COUNT {
        if !at.entries.is_left() {
            return Ok(at);
        }
        if !at.entries.is_told() || !may_follow(at.tape) {
            return Err(halted(at));
        }
        let here = at_line(host, at, folder)?;
        at = put_due(host, here, &[], line)?;
    }
    Err(halted(at))
}

// Ends a tape behind its last row: to the end of the frame, and as far as packets need.
fn end_tape(host: &mut Host, first: Taping, line: &mut [u8], folder: &[u8]) -> Turn<Taping, Status>
    ensures packets { IfOk result (λ r. r.entries.next ≡ Nothing) }
    ensures ended { IfErr result (λ e. code_of e.how ≢ 0) }
    ensures bare { first.entries.next ≡ Nothing → IfOk result (λ r. r.tape ≡ (end_of (length line.old) most_turns first.tape).tape) }
{
    let at = end_frame(host, first, line)?;
    end_packets(host, at, line, folder)
}

// A tape that was taken whole ends well.
fn taken_whole(at: Taping) -> Ended<Taping, Status>
    ensures { result ≡ ended_of at Done }
{
    at.ended(Status::Done)
}

// What a turn makes of what was filled of a row. A failed read is not the end of the input.
fn turned(
    host: &mut Host,
    at: Taping,
    filled: Filled,
    row: &[u8],
    line: &mut [u8],
    folder: &[u8],
) -> Turn<Taping, Status>
    requires { filled.have ≤ length row.now }
    ensures failed { filled.failed ≡ true → result ≡ Err (ended_of at Unread) }
    ensures end { filled.failed ≡ false → filled.have ≡ 0 → IsErrAnd result (λ e. code_of e.how ≡ 0 → e.at.entries.next ≡ Nothing) }
    ensures bare_end { filled.failed ≡ false → filled.have ≡ 0 → at.entries.next ≡ Nothing → IfErr result (λ e. code_of e.how ≡ 0 → e.at.tape ≡ (end_of (length line.old) most_turns at.tape).tape) }
    ensures row { IfOk result (λ r. Onto (length line.old) (take filled.have row.now) most_turns at.tape r.tape) }
    ensures bare { at.entries.next ≡ Nothing → IfOk result (λ r. r.tape ≡ (onto (length line.old) most_turns at.tape (take filled.have row.now) nothing_more).tape) }
{
    if filled.failed {
        return Err(at.ended(Status::Unread));
    }
    if filled.have == 0 {
        let end = end_tape(host, at, line, folder)?;
        return Err(taken_whole(end));
    }
    put_row(host, at, &row[..filled.have], line, folder)
}

// Takes one row of the input.
fn take_row(
    host: &mut Host,
    at: Taping,
    row: &mut [u8],
    line: &mut [u8],
    folder: &[u8],
) -> Turn<Taping, Status> {
    let filled = console::fill(host, INPUT, row);
    turned(host, at, filled, row, line, folder)
}

// Takes rows to the end of the input or the first refusal.
fn take_rows(host: &mut Host, first: Taping, folder: &[u8]) -> Turn<Taping, Status> {
    let begun = start(host, first, folder)?;
    let mut room = [0u8; 2 * System625::LINE_LENGTH];
    let mut row = [0u8; v210::ROW_LENGTH];
    let line = &mut room[..begun.tape.walk.line_bytes()];
    take_turns(host, begun, |host, at| {
        take_row(host, at, &mut row, line, folder)
    })
}

// Records a tape whose packets are begun, and answers the exit status.
fn record_rows(host: &mut Host, first: Taping, folder: &[u8], packets: &[u8]) -> u32 {
    let ended = match take_rows(host, first, folder) {
        Ok(at) => at.ended(Status::Done),
        Err(ended) => ended,
    };
    let closed = close(host, ended);
    tell(host, closed, packets)
}

// The entries of the packets file of this name, which are nothing where it takes the number of standard input: that was closed, and reading rows
// fails. None where they cannot be read, which is said.
fn open_entries(host: &mut Host, packets: &[u8]) -> Option<Entries> {
    match host.open_read(packets) {
        Some(INPUT) => {
            host.close(INPUT);
            return Some(no_entries());
        }
        Some(file) => {
            let entries = entries_of(host, file);
            if !entries.is_lost() {
                return Some(entries);
            }
        }
        None => {}
    }
    say_no_packets(host, packets);
    None
}

// Records standard input: to standard output, or in a folder, where one is named, in recordings of at most so many lines, V of whose first
// fields falls at this line; with the packets of a file, where one is named. Answers the exit status.
pub fn record_input(
    host: &mut Host,
    system: u32,
    start_line: u32,
    folder: &[u8],
    most: u32,
    fall: u32,
    packets: &[u8],
) -> u32 {
    let first = Taping {
        tape: Tape::begin(system, start_line, most, fall),
        output: STANDARD,
        entries: no_entries(),
    };
    if first.tape.number != 0 {
        return tell(host, first.ended(Status::Refused), packets);
    }
    if packets.len() == 0 {
        return record_rows(host, first, folder, packets);
    }
    match open_entries(host, packets) {
        Some(entries) => record_rows(host, Taping { entries, ..first }, folder, packets),
        None => 2,
    }
}
