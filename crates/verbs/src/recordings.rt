// `confirm`, `extract` and `packets`: recordings by name, in folders, or on standard input.
use crate::arguments::{UNREAD, name, names_from, open, text};
use crate::help::Verb;
use crate::options::read_options;
use crate::tally::{Tally, Task};
use crate::wrong::Failed;
use crate::{beside, wrong};
use arrayvec::ArrayVec;
use confirmation::Run;
use console::{Read, Status};
use host::{ERRORS, Host, INPUT, OUTPUT};
use station::{Extracted, Sidecar};
use std::io::ErrorKind;

// Room for the path of a recording in a folder.
const ROOM: usize = 4096;

// Confirms or extracts the lines behind a header, where that could be read.
fn read_on(host: &mut Host, task: Task, input: i32, begun: Read, sidecar: Sidecar) -> Extracted {
    let Read { run, status } = begun;
    match status {
        Status::Unread => Extracted {
            read: Read::unread(run),
            sidecar,
        },
        _ if task.is_extracting() => station::extract(host, input, run, sidecar, task.packets),
        _ => Extracted {
            read: confirm::confirm(host, input, run),
            sidecar,
        },
    }
}

// Says the five lines of a run, and why it was refused. Answers the exit status.
fn tell(host: &mut Host, task: Task, name: &[u8], run: Run) -> Result<u32, Failed> {
    let outcome = run.outcome();
    if !console::print_outcome(host, task.output(), outcome) {
        return Err(task.unwritten(host));
    }
    if run.number == 0 {
        return Ok(0);
    }
    console::say_refused(host, task.verb.name(), name, outcome);
    Ok(1)
}

// What is said of one recording by itself, and the exit status.
fn tell_alone(host: &mut Host, task: Task, name: &[u8], read: Read) -> Result<u32, Failed> {
    let Read { run, status } = read;
    status.say_failure(host, task.verb.name(), name);
    match status {
        Status::Done | Status::Refused => tell(host, task, name, run),
        _ => Err(Failed),
    }
}

// One recording by itself. With no name it is standard input.
fn alone(
    host: &mut Host,
    task: Task,
    input: i32,
    name: &[u8],
    sidecar: Sidecar,
) -> Result<u32, Failed> {
    let begun = console::begin(host, input);
    let extracted = read_on(host, task, input, begun, sidecar);
    let status = tell_alone(host, task, name, extracted.read);
    beside::say_left(host, extracted.sidecar);
    status
}

fn standard_input(host: &mut Host, task: Task, sidecar: Sidecar) -> Result<u32, Failed> {
    console::say_waits(host, task.verb.name(), b"a recording");
    alone(host, task, INPUT, b"", sidecar)
}

// One of several recordings, open as this file and with this header, where there is still something to do.
fn put_open(
    host: &mut Host,
    file: i32,
    begun: Read,
    name: &[u8],
    tally: &mut Tally,
) -> Result<(), Failed> {
    let mut added = Ok(());
    if tally.is_open() {
        let extracted = read_on(host, tally.task, file, begun, tally.sidecar);
        added = tally.add(host, name, extracted);
    }
    host.close(file);
    added
}

fn put_file(host: &mut Host, name: &[u8], tally: &mut Tally) -> Result<(), Failed> {
    match open(host, tally.task.verb, name) {
        Ok(file) => {
            let begun = console::begin(host, file);
            put_open(host, file, begun, name, tally)
        }
        Err(_) => tally.add_unread(host, name),
    }
}

// Says why a recording of a folder could not be opened: it is missing, or as the system has it.
fn say_unopened_piece(host: &mut Host, verb: Verb, name: &[u8]) {
    if host.error() == ErrorKind::NotFound {
        console::say_of(host, verb.name(), name);
        host.write_all(ERRORS, b" is missing\n");
        return;
    }
    console::say_unopened(host, verb.name(), name);
}

fn say_line(host: &mut Host, text: &[u8], line: u32, system: u32) {
    console::say(host, ERRORS, text, u64::from(line));
    console::say(host, ERRORS, b" of ", u64::from(system));
}

// Says that a recording does not go on where the one before ended.
fn say_break(host: &mut Host, tally: &Tally, folder: &[u8], number: u32, name: &[u8], run: Run) {
    let before = tally.before;
    console::say_of(host, tally.task.verb.name(), name);
    host.write_all(ERRORS, b" does not follow on ");
    folder::say_name(host, ERRORS, folder, number);
    say_line(host, b": it starts with line ", run.start, run.system);
    say_line(host, b", and line ", before.walk.line, before.system);
    host.write_all(ERRORS, b" is awaited\n");
}

// Whether a recording with this header breaks the row: the one before was accepted, this one's header is, and it does not go on there.
fn is_break(before: Run, run: Run) -> bool {
    before.number == 0 && run.number == 0 && !confirmation::follows_on(before, run)
}

// The recording behind this number in a folder, open as this file: whether it follows on the one before, and what it comes to.
fn put_follower(
    host: &mut Host,
    folder: &[u8],
    number: u32,
    file: i32,
    name: &[u8],
    tally: &mut Tally,
) -> Result<(), Failed> {
    let begun = console::begin(host, file);
    if is_break(tally.before, begun.run) {
        say_break(host, tally, folder, number, name, begun.run);
        tally.mar(1);
    }
    put_open(host, file, begun, name, tally)
}

// The recording behind this number in a folder.
fn put_piece(host: &mut Host, folder: &[u8], number: u32, tally: &mut Tally) -> Result<(), Failed> {
    let mut path = ArrayVec::<u8, ROOM>::new();
    let opened = folder::open(host, folder, number.wrapping_add(1), &mut path);
    let name = path.as_slice();
    match opened {
        Some(file) => put_follower(host, folder, number, file, name, tally),
        None => {
            say_unopened_piece(host, tally.task.verb, name);
            tally.add_unread(host, name)
        }
    }
}

// A folder: one programme in a row of recordings.
fn put_folder(host: &mut Host, folder: &[u8], tally: &mut Tally) -> Result<(), Failed> {
    let Some(last) = folder::last(host, folder) else {
        console::say_of(host, tally.task.verb.name(), folder);
        host.write_all(
            ERRORS,
            b" holds no numbered recordings (0001.rec and so on)\n",
        );
        return tally.add_unread(host, folder);
    };
    tally.part();
    for number in 0..last {
        if tally.is_open() {
            put_piece(host, folder, number, tally)?;
        }
    }
    Ok(())
}

// One of several arguments: a recording or a folder. One that is longer than any path names nothing.
fn put_argument(host: &mut Host, index: usize, tally: &mut Tally) -> Result<(), Failed> {
    let mut room = io::buffer();
    let Ok(name) = text(host, tally.task.verb, index, &mut room, UNREAD) else {
        return tally.add_unread(host, b"");
    };
    if folder::is_folder(host, name) {
        return put_folder(host, name, tally);
    }
    put_file(host, name, tally)
}

// All arguments from one on.
fn put_all(host: &mut Host, first: usize, tally: &mut Tally) -> Result<u32, Failed> {
    for index in first..host.argument_count() {
        if tally.is_open() {
            put_argument(host, index, tally)?;
        }
    }
    tally.end(host)
}

// The same, and what is left of their packets.
fn put_arguments(
    host: &mut Host,
    task: Task,
    first: usize,
    sidecar: Sidecar,
) -> Result<u32, Failed> {
    let mut tally = Tally::none(task, sidecar);
    let status = put_all(host, first, &mut tally);
    beside::say_left(host, tally.sidecar);
    status
}

// The one argument that there is: a recording has its five lines.
fn put_only(host: &mut Host, task: Task, index: usize, sidecar: Sidecar) -> Result<u32, Failed> {
    let mut room = io::buffer();
    let name = text(host, task.verb, index, &mut room, UNREAD)?;
    if folder::is_folder(host, name) {
        return put_arguments(host, task, index, sidecar);
    }
    let file = open(host, task.verb, name)?;
    alone(host, task, file, name, sidecar)
}

// The recording or folder that an argument names, or standard input, where there is no more argument.
fn read_one(host: &mut Host, task: Task, first: usize, sidecar: Sidecar) -> Result<u32, Failed> {
    if host.argument_count() <= first {
        return standard_input(host, task, sidecar);
    }
    put_only(host, task, first, sidecar)
}

// Whether there are more arguments than the one from here on that a verb takes.
fn is_more_than_one(host: &Host, first: usize) -> bool {
    1 < host.argument_count().saturating_sub(first)
}

// A verb that takes no packets file.
fn task_of(verb: Verb) -> Task<'static> {
    Task { verb, packets: b"" }
}

pub(crate) fn confirm(host: &mut Host) -> Result<u32, Failed> {
    let first = names_from(host, Verb::Confirm)?;
    let task = task_of(Verb::Confirm);
    if is_more_than_one(host, first) {
        return put_arguments(host, task, first, Sidecar::NONE);
    }
    read_one(host, task, first, Sidecar::NONE)
}

// Extracts with the packets file that an argument names.
fn extract_beside(host: &mut Host, first: usize, index: usize) -> Result<u32, Failed> {
    let mut room = io::buffer();
    let failure = b"FILE could not be written";
    let packets = name(host, Verb::Extract, index, &mut room, failure)?;
    let file = beside::make(host, packets)?;
    if file == OUTPUT {
        return Err(beside::without_output(host));
    }
    let task = Task {
        verb: Verb::Extract,
        packets,
    };
    let status = read_one(host, task, first, Sidecar::of(file));
    beside::close(host, file, packets)?;
    status
}

pub(crate) fn extract(host: &mut Host) -> Result<u32, Failed> {
    let options = read_options(host, Verb::Extract)?;
    let first = options.end;
    if is_more_than_one(host, first) {
        return Err(wrong::no_place(host, Verb::Extract, first.wrapping_add(1)));
    }
    if console::is_terminal_refused(host, Verb::Extract.name()) {
        return Err(Failed);
    }
    match options.packets {
        Some(index) => extract_beside(host, first, index),
        None => read_one(host, task_of(Verb::Extract), first, Sidecar::NONE),
    }
}

// Lists the packets of a recording.
pub(crate) fn packets(host: &mut Host) -> Result<u32, Failed> {
    let first = names_from(host, Verb::Packets)?;
    if is_more_than_one(host, first) {
        return Err(wrong::no_place(host, Verb::Packets, first.wrapping_add(1)));
    }
    read_one(host, task_of(Verb::Packets), first, Sidecar::LISTED)
}
