// `record`, `scramble` and `descramble`.
use crate::arguments::{name_if, names_from, number};
use crate::help::Verb;
use crate::options::{Options, read_options};
use crate::wrong;
use crate::wrong::Failed;
use host::Host;
use system::{System525, Walk};

// The most lines of a recording that is never cut: past the limit it is refused.
const UNCUT: u32 = u32::MAX;

// Serial coding or decoding, which takes no argument.
pub(crate) fn code(host: &mut Host, verb: Verb, what: &[u8]) -> Result<u32, Failed> {
    let first = names_from(host, verb)?;
    if first < host.argument_count() {
        return Err(wrong::no_place(host, verb, first));
    }
    if console::is_terminal_refused(host, verb.name()) {
        return Err(Failed);
    }
    console::say_waits(host, verb.name(), what);
    let is_coding = verb == Verb::Scramble;
    Ok(station::code_input(host, verb.name(), is_coding))
}

// Records where the options say, with the packets of a file, where one is named.
fn record_to(
    host: &mut Host,
    options: Options,
    system: u32,
    start: u32,
    packets: &[u8],
) -> Result<u32, Failed> {
    let verb = Verb::Record;
    let fall = options.fall.unwrap_or(System525::LAST_FALL);
    // more frames than any recording has lines
    let frames = options.frames.unwrap_or(Walk::MOST_LINES);
    let mut room = io::buffer();
    let failure = b"FOLDER could not be made";
    let folder = name_if(host, verb, options.folder, &mut room, failure)?;
    if folder.is_empty() && console::is_terminal_refused(host, verb.name()) {
        return Err(Failed);
    }
    let most = if folder.is_empty() {
        UNCUT
    } else {
        programme::piece_lines(system, frames)
    };
    console::say_waits(host, verb.name(), b"v210 rows");
    Ok(station::record_input(host, system, start, folder, most, fall, packets))
}

pub(crate) fn record(host: &mut Host) -> Result<u32, Failed> {
    let verb = Verb::Record;
    let options = read_options(host, verb)?;
    let count = host.argument_count();
    let behind = options.end.wrapping_add(2);
    if count < behind {
        return Err(wrong::missing(host, verb));
    }
    if behind < count {
        return Err(wrong::no_place(host, verb, behind));
    }
    let system = number(host, verb, options.end)?;
    let start = number(host, verb, options.end.wrapping_add(1))?;
    let mut room = io::buffer();
    let failure = b"FILE could not be read";
    let packets = name_if(host, verb, options.packets, &mut room, failure)?;
    record_to(host, options, system, start, packets)
}
