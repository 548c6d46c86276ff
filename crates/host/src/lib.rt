// The process as the command sees it: its files by their numbers, its arguments, and why the last call failed. What comes of these calls is
// up to the system, so no contract can determine it.
#![tactic(auto)]

mod arguments;
mod files;
mod names;
mod start;
mod telling;

use std::fs::File;
use std::io::{Error, ErrorKind, Result};

// The numbers of the standard streams.
pub const INPUT: i32 = 0;

pub const OUTPUT: i32 = 1;

pub const ERRORS: i32 = 2;

// The system's numbers for what a call fails in that never came to it, which is told in its words for them: a signal came in between, a number
// that is not open, no sense, too many files that are open, too long, a name that is no text, and one that is on no disk.
const INTERRUPTED: i32 = 4;

const NOT_OPEN: i32 = 9;

const INVALID: i32 = 22;

const TOO_MANY: i32 = 24;

const TOO_LONG: i32 = 36;

const NO_TEXT: i32 = 84;

const NO_DISK: i32 = 95;

// How many files may be open at once: no verb opens as many.
const SLOTS: usize = 8;

// The files that are open, and why the last call failed that did, by its number. A File has no default, so they lie in options and no ArrayVec.
#[derive(Drop)]
pub struct Host {
    rt: HostRuntime,
    files: [Option<File>; SLOTS],
    error: i32,
}

// The number that stands for an error.
fn number_of(error: Error) -> i32 {
    error.raw_os_error().unwrap_or(INVALID)
}

impl Host {
    // A process with no file open but the standard streams.
    pub fn new(rt: HostRuntime) -> Host {
        Host {
            rt,
            files: Default::default(),
            error: 0,
        }
    }

    // Why the last call failed that did.
    pub fn error(&self) -> ErrorKind {
        Error::from_raw_os_error(self.error).kind()
    }

    // What a call gave, or none where it failed, and why it did is kept.
    fn given<T>(&mut self, called: Result<T>) -> Option<T> {
        match called {
            Ok(value) => Some(value),
            Err(error) => {
                self.error = number_of(error);
                None
            }
        }
    }
}
