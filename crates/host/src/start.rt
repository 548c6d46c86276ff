// What a process needs before its files are opened.
use crate::{ERRORS, Host, NOT_OPEN};
use std::io::Write;

// What takes all that is written and keeps nothing.
const NOTHING: &[u8] = b"/dev/null";

// How many numbers are lower than that of standard error.
const LOWER: u32 = 2;

impl Host {
    // Whether nothing can be written to standard error: it is closed, or open for reading alone.
    fn has_no_errors(&self) -> bool {
        self.rt
            .stderr()
            .write(&[])
            .is_err_and(|error| error.raw_os_error() == Some(NOT_OPEN))
    }

    // Opens nothing, and opens it as standard error, by way of the lower numbers, where these are closed too: so many of them at most. True where
    // standard error is open then: what was opened has its number, or a higher one, since that was taken.
    fn open_errors(&mut self, lower: u32) -> bool {
        match self.open_append(NOTHING) {
            None => false,
            Some(ERRORS) => true,
            Some(file) => {
                let is_open = ERRORS < file || 0 < lower && self.open_errors(lower - 1);
                self.close(file);
                is_open
            }
        }
    }

    // Standard error that is closed is opened as nothing: a recording that is made would take its number, and messages with it. False where
    // that failed.
    pub fn has_errors(&mut self) -> bool {
        if self.has_no_errors() {
            return self.open_errors(LOWER);
        }
        true
    }
}
