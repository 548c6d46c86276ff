// The arguments that the process was started with, its own name first.
ghost use Rattle.std.specs.Prelude.{◌≤◌, IfSome, length};

use crate::{Host, INVALID, TOO_LONG};
use std::env::FillError;
use std::rt::Env;

impl Host {
    // Whether there is an argument of this index.
    fn has_argument(&self, index: usize) -> bool {
        !matches!(self.rt.arg(index, &mut []), Err(FillError::NotPresent))
    }

    // How many arguments there are.
    pub fn argument_count(&self) -> usize {
        (0..usize::MAX)
            .find(|index| !self.has_argument(*index))
            .unwrap_or(usize::MAX)
    }

    // Puts an argument at the start of a room and lends it from there, or none where it is missing or longer than the room, which then holds its
    // first bytes.
    pub fn argument<'a>(&mut self, index: usize, room: &'a mut [u8]) -> Option<&'a [u8]>
        ensures { IfSome result (λ text. length text.now ≤ length room.old) }
    {
        match self.rt.arg(index, room) {
            Ok(length) => {
                self.error = 0;
                Some(&room[..length])
            }
            Err(FillError::TooLong) => {
                self.error = TOO_LONG;
                None
            }
            Err(FillError::NotPresent) => {
                self.error = INVALID;
                None
            }
        }
    }
}
