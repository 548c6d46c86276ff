// `finish`, `ask`, `check` and `unfinish`: finished files by name.
use crate::arguments::{UNREAD, names_from, number, open, text};
use crate::help::Verb;
use crate::wrong;
use crate::wrong::Failed;
use host::{Host, INPUT};
use retention::File;

// Finishes a recording that is open.
fn finish_open(host: &mut Host, input: i32, name: &[u8], finished: &[u8]) -> u32 {
    let begun = console::begin(host, input);
    retention::finish(host, input, begun, name, finished)
}

// Finishes the recording that an argument names.
fn finish_argument(host: &mut Host, index: usize, finished: &[u8]) -> Result<u32, Failed> {
    let mut room = io::buffer();
    let name = text(host, Verb::Finish, index, &mut room, UNREAD)?;
    let input = open(host, Verb::Finish, name)?;
    let status = finish_open(host, input, name, finished);
    host.close(input);
    Ok(status)
}

// Finishes into the file that an argument names: the recording of the argument before it, or standard input.
fn finish_into(host: &mut Host, first: usize, last: usize) -> Result<u32, Failed> {
    let mut room = io::buffer();
    let failure = b"FINISHED could not be made";
    let finished = text(host, Verb::Finish, last, &mut room, failure)?;
    if first != last {
        return finish_argument(host, first, finished);
    }
    console::say_waits(host, Verb::Finish.name(), b"a recording");
    Ok(finish_open(host, INPUT, b"", finished))
}

pub(crate) fn finish(host: &mut Host) -> Result<u32, Failed> {
    let first = names_from(host, Verb::Finish)?;
    let count = host.argument_count();
    if count <= first {
        return Err(wrong::missing(host, Verb::Finish));
    }
    if 2 < count - first {
        return Err(wrong::no_place(host, Verb::Finish, first.wrapping_add(2)));
    }
    finish_into(host, first, count - 1)
}

// The numbers from an argument on.
fn numbers_from<const N: usize>(
    host: &mut Host,
    verb: Verb,
    first: usize,
) -> Result<[u32; N], Failed> {
    let mut numbers = [0; N];
    for (i, place) in numbers.iter_mut().enumerate() {
        *place = number(host, verb, first.wrapping_add(i))?;
    }
    Ok(numbers)
}

// A finished file that is open, its name and so many numbers behind that.
fn open_finished<'a, const N: usize>(
    host: &mut Host,
    verb: Verb,
    room: &'a mut [u8],
) -> Result<(i32, &'a [u8], [u32; N]), Failed> {
    let first = names_from(host, verb)?;
    let behind = first.wrapping_add(1);
    let end = behind.wrapping_add(N);
    if host.argument_count() < end {
        return Err(wrong::missing(host, verb));
    }
    if end < host.argument_count() {
        return Err(wrong::no_place(host, verb, end));
    }
    let numbers = numbers_from(host, verb, behind)?;
    let name = text(host, verb, first, room, UNREAD)?;
    let file = open(host, verb, name)?;
    Ok((file, name, numbers))
}

pub(crate) fn ask(host: &mut Host) -> Result<u32, Failed> {
    let mut room = io::buffer();
    let (number, name, numbers) = open_finished::<4>(host, Verb::Ask, &mut room)?;
    let [system, start, a, b] = numbers;
    let file = File {
        number,
        system,
        start,
    };
    let status = retention::ask(host, file, name, a, b);
    host.close(number);
    Ok(status)
}

// Runs a verb that takes a finished file, its system and its start line.
fn run<F: FnOnce(&mut Host, File, &[u8]) -> u32>(
    host: &mut Host,
    verb: Verb,
    call: F,
) -> Result<u32, Failed>
    requires { F.IsAlwaysCallable call }
{
    let mut room = io::buffer();
    let (number, name, numbers) = open_finished::<2>(host, verb, &mut room)?;
    let [system, start] = numbers;
    let file = File {
        number,
        system,
        start,
    };
    let status = call(host, file, name);
    host.close(number);
    Ok(status)
}

pub(crate) fn check(host: &mut Host) -> Result<u32, Failed> {
    run(host, Verb::Check, retention::check)
}

// Writes the recording that a finished file was made of.
pub(crate) fn unfinish(host: &mut Host) -> Result<u32, Failed> {
    if console::is_terminal_refused(host, Verb::Unfinish.name()) {
        return Err(Failed);
    }
    run(host, Verb::Unfinish, retention::unfinish)
}
