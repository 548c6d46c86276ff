// The command's arguments.
use crate::help::Verb;
use crate::wrong;
use crate::wrong::Failed;
use host::Host;

// Where a verb's own arguments begin: behind the command's name and the verb.
pub(crate) const FIRST: usize = 2;

// What is said of a recording or a finished file whose name cannot be had.
pub(crate) const UNREAD: &[u8] = b" could not be read";

pub(crate) fn is_help(text: &[u8]) -> bool {
    matches!(text, b"--help" | b"-h")
}

// A text that begins with a dash and goes on.
pub(crate) fn is_option(text: &[u8]) -> bool {
    matches!(text, [b'-', _, ..])
}

// Whether a verb is followed by the option for help.
pub(crate) fn is_help_asked(host: &mut Host) -> bool {
    let mut room = [0u8; 8];
    host.argument(FIRST, &mut room).is_some_and(is_help)
}

// Where the names that a verb takes begin: behind `--`. An option none of these verbs has.
pub(crate) fn names_from(host: &mut Host, verb: Verb) -> Result<usize, Failed> {
    let mut room = io::buffer();
    match host.argument(FIRST, &mut room) {
        Some(b"--") => Ok(FIRST + 1),
        Some(text) if is_option(text) => Err(wrong::no_option(host, verb, FIRST)),
        _ => Ok(FIRST),
    }
}

// The text of an argument. Where it is missing or longer than any path, says what could not be done, in the system's words.
pub(crate) fn text<'a>(
    host: &mut Host,
    verb: Verb,
    index: usize,
    room: &'a mut [u8],
    failure: &[u8],
) -> Result<&'a [u8], Failed> {
    match host.argument(index, room) {
        Some(text) => Ok(text),
        None => {
            console::say_of(host, verb.name(), b"");
            host.fail(failure);
            Err(Failed)
        }
    }
}

// The same of an argument that may not be empty.
pub(crate) fn name<'a>(
    host: &mut Host,
    verb: Verb,
    index: usize,
    room: &'a mut [u8],
    failure: &[u8],
) -> Result<&'a [u8], Failed> {
    let text = text(host, verb, index, room, failure)?;
    if text.is_empty() {
        return Err(wrong::missing(host, verb));
    }
    Ok(text)
}

// The same of the argument that an option names: empty where it names none.
pub(crate) fn name_if<'a>(
    host: &mut Host,
    verb: Verb,
    index: Option<usize>,
    room: &'a mut [u8],
    failure: &[u8],
) -> Result<&'a [u8], Failed> {
    match index {
        Some(index) => name(host, verb, index, room, failure),
        None => Ok(&[]),
    }
}

// The number that digits give, if they are one to nine.
fn number_of(digits: &[u8]) -> Option<u32> {
    let mut number: u32 = 0;
    for digit in digits {
        if !digit.is_ascii_digit() || 99_999_999 < number {
            return None;
        }
        number = 10 * number + u32::from(*digit - b'0');
    }
    (!digits.is_empty()).then_some(number)
}

// Whether an argument is a number: a longer one than nine digits is not taken at all.
pub(crate) fn is_number(host: &mut Host, index: usize) -> bool {
    let mut room = [0u8; 9];
    host.argument(index, &mut room)
        .is_some_and(|digits| number_of(digits).is_some())
}

// The number that an argument gives.
pub(crate) fn number(host: &mut Host, verb: Verb, index: usize) -> Result<u32, Failed> {
    let mut room = [0u8; 9];
    host.argument(index, &mut room)
        .and_then(number_of)
        .ok_or_else(|| wrong::no_number(host, verb, index))
}

// Opens the file of a name for reading.
pub(crate) fn open(host: &mut Host, verb: Verb, name: &[u8]) -> Result<i32, Failed> {
    match host.open_read(name) {
        Some(file) => Ok(file),
        None => {
            console::say_unopened(host, verb.name(), name);
            Err(Failed)
        }
    }
}
