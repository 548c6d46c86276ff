// The options of `record` and `extract`.
use crate::arguments::{FIRST, is_number, is_option, number};
use crate::help::Verb;
use crate::wrong;
use crate::wrong::Failed;
use host::Host;

// What the options give: the arguments that name a folder and a packets file, two numbers, and where the options end.
#[derive(Clone, Copy)]
pub(crate) struct Options {
    pub(crate) folder: Option<usize>,
    pub(crate) frames: Option<u32>,
    pub(crate) packets: Option<usize>,
    pub(crate) fall: Option<u32>,
    pub(crate) end: usize,
}

// The arguments that the options name so far, and where they end.
#[derive(Clone, Copy)]
struct Named {
    folder: Option<usize>,
    frames: Option<usize>,
    packets: Option<usize>,
    fall: Option<usize>,
    end: usize,
}

// The argument that gives an option's number where it is named again: the later one, but what is no number is kept, to be told.
fn number_at(host: &mut Host, before: Option<usize>, value: usize) -> Option<usize> {
    match before {
        Some(index) if !is_number(host, index) => before,
        _ => Some(value),
    }
}

impl Named {
    // Takes the text at the end, where that is an option of the verb. True where it is: those of `record` are more.
    fn take(&mut self, host: &mut Host, verb: Verb, text: &[u8]) -> bool {
        let value = self.end.wrapping_add(1);
        match text {
            b"--packets" => self.packets = Some(value),
            b"--into" if verb == Verb::Record => self.folder = Some(value),
            b"--frames" if verb == Verb::Record => {
                self.frames = number_at(host, self.frames, value);
            }
            b"--fall" if verb == Verb::Record => self.fall = number_at(host, self.fall, value),
            _ => return false,
        }
        self.end = value.wrapping_add(1);
        true
    }

    // Reads the options: there are not more of them than arguments.
    fn read(host: &mut Host, verb: Verb) -> Named {
        let mut named = Named {
            folder: None,
            frames: None,
            packets: None,
            fall: None,
            end: FIRST,
        };
        for _ in 0..host.argument_count() {
            let mut room = io::buffer();
            let text = host.argument(named.end, &mut room).unwrap_or_default();
            if !named.take(host, verb, text) {
                break;
            }
        }
        named
    }
}

// The number of an option, where it is named.
fn number_of(host: &mut Host, verb: Verb, index: Option<usize>) -> Result<Option<u32>, Failed> {
    match index {
        Some(index) => Ok(Some(number(host, verb, index)?)),
        None => Ok(None),
    }
}

// Reads the options, or says what is wrong with them, from left to right, and with their sense.
pub(crate) fn read_options(host: &mut Host, verb: Verb) -> Result<Options, Failed> {
    let named = Named::read(host, verb);
    let mut room = io::buffer();
    let text = host.argument(named.end, &mut room).unwrap_or_default();
    let is_ended = matches!(text, b"--");
    if host.argument_count() < named.end {
        return Err(wrong::missing(host, verb));
    }
    let frames = number_of(host, verb, named.frames)?;
    let fall = number_of(host, verb, named.fall)?;
    if !is_ended && is_option(text) {
        return Err(wrong::no_option(host, verb, named.end));
    }
    if frames.is_some() && named.folder.is_none() {
        return Err(wrong::said(host, verb, b"--frames goes with --into\n"));
    }
    if frames == Some(0) {
        return Err(wrong::said(host, verb, b"--frames takes 1 or more\n"));
    }
    Ok(Options {
        folder: named.folder,
        frames,
        packets: named.packets,
        fall,
        end: named.end.wrapping_add(usize::from(is_ended)),
    })
}
