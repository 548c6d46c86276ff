// Why a call failed, in the system's words.
use crate::{ERRORS, Host};
use arrayvec::ArrayVec;
use std::io::{Error, Write};

// A text that ends in a number in brackets without these and the blank before them.
fn bare(text: &[u8]) -> &[u8] {
    match text.iter().rposition(|byte| *byte == b'(') {
        Some(place) => &text[..place.saturating_sub(1)],
        None => text,
    }
}

// The system's words for an error, by way of room for them.
fn words<const N: usize>(number: i32, room: &mut ArrayVec<u8, N>) -> &[u8] {
    room.clear();
    let _ = write!(room, "{}", Error::from_raw_os_error(number));
    bare(room.as_slice())
}

impl Host {
    // Writes a line to standard error: what failed, a colon, and why the last call failed that did.
    pub fn fail(&mut self, what: &[u8]) {
        let mut room = ArrayVec::<u8, 128>::new();
        let why = words(self.error, &mut room);
        self.write_all(ERRORS, what);
        self.write_all(ERRORS, b": ");
        self.write_all(ERRORS, why);
        self.write_all(ERRORS, b"\n");
    }
}

#[cfg(test)]
mod tests {
    use super::*;

    #[test]
    fn errors_are_told_in_the_systems_words(rt: HostRuntime) {
        let mut room = ArrayVec::<u8, 128>::new();
        assert!(rt; words(2, &mut room) == b"No such file or directory".as_slice());
        assert!(rt; words(27, &mut room) == b"File too large".as_slice());
    }

    #[test]
    fn a_text_without_a_number_stays_whole(rt: HostRuntime) {
        assert!(rt; bare(b"text").len() == 4);
        assert!(rt; bare(b"").len() == 0);
        assert!(rt; bare(b"(1)").len() == 0);
        assert!(rt; bare(b"text (1)").len() == 4);
    }
}
