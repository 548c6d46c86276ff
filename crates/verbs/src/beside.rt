// The packets file that `extract` makes, and what is said where packets go nowhere.
use crate::help::Verb;
use crate::wrong::Failed;
use host::{ERRORS, Host, OUTPUT};
use station::Sidecar;
use std::io::ErrorKind;

fn unwritten(host: &mut Host, name: &[u8]) -> Failed {
    console::say_of(host, Verb::Extract.name(), name);
    host.fail(b" could not be written");
    Failed
}

// Opens a file that is there already, where it holds nothing, as a pipe, a device and an empty file do.
fn open_empty(host: &mut Host, name: &[u8]) -> Result<i32, Failed> {
    let Some(file) = host.open_append(name) else {
        return Err(unwritten(host, name));
    };
    if host.seek_end(file).unwrap_or(0) == 0 {
        return Ok(file);
    }
    host.close(file);
    console::say_of(host, Verb::Extract.name(), name);
    host.write_all(ERRORS, b" holds something already: name another file\n");
    Err(Failed)
}

// Makes the packets file, and opens it for writing; or says why it is not. A file that holds something is not touched: it might be a recording.
pub(crate) fn make(host: &mut Host, name: &[u8]) -> Result<i32, Failed> {
    match host.create(name) {
        Some(file) => Ok(file),
        None if host.error() == ErrorKind::AlreadyExists => open_empty(host, name),
        None => Err(unwritten(host, name)),
    }
}

// Where standard output is closed the packets file takes its number, and no row could be written: says so, in the system's words for a number that
// is closed twice.
pub(crate) fn without_output(host: &mut Host) -> Failed {
    host.close(OUTPUT);
    host.close(OUTPUT);
    console::say_unwritten(host, Verb::Extract.name());
    Failed
}

// Closes the packets file: what was written may fail as late as that, which is said.
pub(crate) fn close(host: &mut Host, file: i32, name: &[u8]) -> Result<(), Failed> {
    if host.close_written(file) {
        return Ok(());
    }
    Err(unwritten(host, name))
}

// Says once how many lines had packets that went nowhere, if any had, and what would take them.
pub(crate) fn say_left(host: &mut Host, sidecar: Sidecar) {
    let lines = sidecar.lines_left();
    if lines == 0 {
        return;
    }
    console::say(
        host,
        ERRORS,
        b"extract: lines whose packets were not written: ",
        lines,
    );
    host.write_all(ERRORS, b" (--packets FILE writes them)\n");
}
