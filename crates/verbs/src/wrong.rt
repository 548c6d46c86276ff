// Wrong use: a line that says what is wrong, and a line with the right form.
use crate::help;
use crate::help::Verb;
use host::{ERRORS, Host};

// The use is wrong or the system failed, which was said: the exit status is 2.
#[derive(Clone, Copy)]
pub(crate) struct Failed;

fn with_usage(host: &mut Host, verb: Option<Verb>) -> Failed {
    help::print_usage(host, ERRORS, verb);
    Failed
}

// What is wrong with an argument, whose name stands between two texts.
fn with_argument(host: &mut Host, verb: Verb, before: &[u8], index: usize, after: &[u8]) -> Failed {
    let mut room = io::buffer();
    let name = host.argument(index, &mut room).unwrap_or_default();
    console::say_of(host, verb.name(), b"");
    host.write_all(ERRORS, before);
    console::say_name(host, ERRORS, name);
    host.write_all(ERRORS, after);
    with_usage(host, Some(verb))
}

pub(crate) fn no_option(host: &mut Host, verb: Verb, index: usize) -> Failed {
    with_argument(host, verb, b"there is no option ", index, b"\n")
}

pub(crate) fn no_place(host: &mut Host, verb: Verb, index: usize) -> Failed {
    with_argument(
        host,
        verb,
        b"there is no place for the argument ",
        index,
        b"\n",
    )
}

pub(crate) fn no_number(host: &mut Host, verb: Verb, index: usize) -> Failed {
    with_argument(
        host,
        verb,
        b"",
        index,
        b" is no number of one to nine digits\n",
    )
}

pub(crate) fn said(host: &mut Host, verb: Verb, what: &[u8]) -> Failed {
    console::say_of(host, verb.name(), b"");
    host.write_all(ERRORS, what);
    with_usage(host, Some(verb))
}

pub(crate) fn missing(host: &mut Host, verb: Verb) -> Failed {
    said(host, verb, b"an argument is missing\n")
}

pub(crate) fn missing_verb(host: &mut Host) -> Failed {
    host.write_all(ERRORS, b"fiskrogn: a verb is missing\n");
    with_usage(host, None)
}

pub(crate) fn no_verb(host: &mut Host, name: &[u8]) -> Failed {
    host.write_all(ERRORS, b"fiskrogn: there is no verb ");
    console::say_name(host, ERRORS, name);
    host.write_all(ERRORS, b"\n");
    with_usage(host, None)
}
