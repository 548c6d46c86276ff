// The command's verbs, and what is said of their use. What comes of them is up to the system, so no contract can determine it.
#![tactic(auto)]

mod arguments;
mod beside;
mod filters;
mod help;
mod kept;
mod options;
mod recordings;
mod tally;
mod wrong;

use crate::arguments::{is_help, is_help_asked, names_from};
use crate::help::Verb;
use crate::wrong::Failed;
use host::{Host, OUTPUT};

// The exit status of a text that was to be written.
fn written(host: &mut Host, is_written: bool) -> Result<u32, Failed> {
    if is_written {
        return Ok(0);
    }
    console::say_unwritten(host, b"fiskrogn");
    Err(Failed)
}

fn print_help(host: &mut Host, verb: Option<Verb>) -> Result<u32, Failed> {
    let is_written = help::print(host, verb);
    written(host, is_written)
}

// The help of the verb that an argument names, or of the command.
fn say_help(host: &mut Host) -> Result<u32, Failed> {
    let first = names_from(host, Verb::Help)?;
    if host.argument_count() <= first {
        return print_help(host, None);
    }
    let mut room = io::buffer();
    let name = host.argument(first, &mut room).unwrap_or_default();
    let Some(verb) = Verb::named(name) else {
        return Err(wrong::no_verb(host, name));
    };
    let next = first.wrapping_add(1);
    if next < host.argument_count() {
        return Err(wrong::no_place(host, Verb::Help, next));
    }
    print_help(host, Some(verb))
}

fn run_verb(host: &mut Host, verb: Verb) -> Result<u32, Failed> {
    match verb {
        Verb::Confirm => recordings::confirm(host),
        Verb::Record => filters::record(host),
        Verb::Extract => recordings::extract(host),
        Verb::Packets => recordings::packets(host),
        Verb::Finish => kept::finish(host),
        Verb::Ask => kept::ask(host),
        Verb::Check => kept::check(host),
        Verb::Unfinish => kept::unfinish(host),
        Verb::Scramble => filters::code(host, verb, b"words"),
        Verb::Descramble => filters::code(host, verb, b"channel words"),
        Verb::Help => say_help(host),
    }
}

fn command(host: &mut Host, name: &[u8]) -> Result<u32, Failed> {
    if is_help(name) {
        return print_help(host, None);
    }
    if matches!(name, b"--version") {
        let is_written = host.write_all(OUTPUT, b"fiskrogn 0.1.0\n");
        return written(host, is_written);
    }
    let Some(verb) = Verb::named(name) else {
        return Err(wrong::no_verb(host, name));
    };
    if is_help_asked(host) {
        return print_help(host, Some(verb));
    }
    run_verb(host, verb)
}

fn run_arguments(host: &mut Host) -> Result<u32, Failed> {
    if host.argument_count() < 2 {
        return Err(wrong::missing_verb(host));
    }
    let mut room = io::buffer();
    let name = host.argument(1, &mut room).unwrap_or_default();
    command(host, name)
}

// Runs the command with the process's arguments, and answers the exit status: a program of this language has none.
pub fn run(host: &mut Host) -> u32 {
    run_arguments(host).unwrap_or(2)
}
