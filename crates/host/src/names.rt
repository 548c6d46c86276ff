// Files by their names. A name is any bytes, and the library takes text, so one that is no text is told by characters, which the process around
// the command turns back.
use crate::{Host, NO_TEXT, TOO_LONG};
use arrayvec::ArrayVec;
use std::fs;
use std::fs::{File, OpenOptions};
use std::io::{Error, ErrorKind, Result};
use std::os::unix::fs::OpenOptionsExt;
use std::random::RandomSource;

// How many letters a temporary file's name ends in, and how many names are tried.
const LETTERS: usize = 6;

const TRIES: usize = 10_000;

// The bytes that one byte of a name takes at most when it is told.
const WIDEST: usize = 4;

// Room for a name that is told by characters: the system opens none that is longer.
const ROOM: usize = 4096 + WIDEST;

// The first of the characters that tell no text: of U+10FF80 to U+10FFFF each stands for one byte from 128 on.
const FIRST: char = '\u{100000}';

// Puts a part of a name behind what was told as it is. For its last byte too there has to be the room that any byte takes.
fn put_plain<const N: usize>(told: &mut ArrayVec<u8, N>, bytes: &[u8]) -> Result<()> {
    if told.remaining_capacity().saturating_sub(WIDEST - 1) < bytes.len() {
        return Err(Error::from_raw_os_error(TOO_LONG));
    }
    told.try_extend_from_slice(bytes)
        .map_err(|_| Error::from_raw_os_error(TOO_LONG))
}

// Puts the character that stands for a byte.
fn put_by_character<const N: usize>(told: &mut ArrayVec<u8, N>, byte: u8) -> Result<()> {
    for part in [0xf4, 0x8f, 0xbc | byte >> 6, 0x80 | byte & 0x3f] {
        told.try_push(part)
            .map_err(|_| Error::from_raw_os_error(TOO_LONG))?;
    }
    Ok(())
}

// Whether text is told as it is: none of its characters may stand for a byte.
fn is_plain(text: &str) -> bool {
    text.chars().all(|character| character < FIRST)
}

// Puts a name's character: as it is, or each of its bytes by a character, where it may stand for a byte.
fn put_character<const N: usize>(told: &mut ArrayVec<u8, N>, character: char) -> Result<()> {
    let mut room = [0u8; WIDEST];
    let bytes = character.encode_utf8(&mut room).as_bytes();
    if character < FIRST {
        return put_plain(told, bytes);
    }
    for byte in bytes {
        put_by_character(told, *byte)?;
    }
    Ok(())
}

// Puts a name's text: at once where it is told as it is.
fn put_text<const N: usize>(told: &mut ArrayVec<u8, N>, text: &str) -> Result<()> {
    if is_plain(text) {
        return put_plain(told, text.as_bytes());
    }
    for character in text.chars() {
        put_character(told, character)?;
    }
    Ok(())
}

// The name told by characters, as text.
fn told<'a, const N: usize>(name: &[u8], room: &'a mut ArrayVec<u8, N>) -> Result<&'a str> {
    for chunk in name.utf8_chunks() {
        put_text(room, chunk.valid())?;
        for byte in chunk.invalid() {
            put_by_character(room, *byte)?;
        }
    }
    std::str::from_utf8(room.as_slice()).map_err(|_| Error::from_raw_os_error(NO_TEXT))
}

// A name as text: as it is, or told by characters in the room.
fn text_of<'a, const N: usize>(name: &'a [u8], room: &'a mut ArrayVec<u8, N>) -> Result<&'a str> {
    match std::str::from_utf8(name) {
        Ok(text) if is_plain(text) => Ok(text),
        _ => told(name, room),
    }
}

// The letter that stands for a byte.
fn letter(byte: u8) -> u8 {
    match byte % 62 {
        number @ 0..=9 => b'0' + number,
        number @ 10..=35 => b'A' + (number - 10),
        number => b'a' + (number - 36),
    }
}

// Writes letters for these bytes over the end of a name.
fn put_letters(name: &mut [u8], bytes: &[u8; LETTERS]) {
    if let Some(end) = name.last_chunk_mut::<LETTERS>() {
        *end = bytes.map(letter);
    }
}

impl Host {
    // Makes a call by a name as text.
    fn by_text<T, F: FnOnce(&str) -> Result<T>>(&self, name: &[u8], call: F) -> Result<T>
        requires { F.IsAlwaysCallable call }
    {
        let mut room = ArrayVec::<u8, ROOM>::new();
        call(text_of(name, &mut room)?)
    }

    fn open(&mut self, how: &OpenOptions, name: &[u8]) -> Option<i32> {
        let opened = self.by_text(name, |text| how.open(&self.rt, text));
        self.opened(opened)
    }

    // Opens a file for reading, and answers its number, or none where that failed.
    pub fn open_read(&mut self, name: &[u8]) -> Option<i32> {
        let mut how = OpenOptions::new();
        how.read(true);
        self.open(&how, name)
    }

    // Opens a file that is there for writing behind its end.
    pub fn open_append(&mut self, name: &[u8]) -> Option<i32> {
        let mut how = OpenOptions::new();
        how.append(true);
        self.open(&how, name)
    }

    // Makes a file that was not there, and opens it for writing.
    pub fn create(&mut self, name: &[u8]) -> Option<i32> {
        let mut how = OpenOptions::new();
        how.write(true).create_new(true);
        self.open(&how, name)
    }

    // Makes a file that was not there and that no one else may open, and opens it for reading and writing. The last six bytes of the name become
    // letters that no file there has.
    pub fn create_temporary(&mut self, name: &mut [u8]) -> Option<i32> {
        let mut how = OpenOptions::new();
        how.read(true).write(true).create_new(true).mode(0o600);
        for _ in 0..TRIES {
            let mut bytes = [0u8; LETTERS];
            let filled = self.rt.fill_bytes(&mut bytes);
            self.given(filled)?;
            put_letters(name, &bytes);
            let file = self.open(&how, name);
            if file.is_some() || self.error() != ErrorKind::AlreadyExists {
                return file;
            }
        }
        None
    }

    // Removes a file's name.
    pub fn remove(&mut self, name: &[u8]) -> bool {
        let done = self.by_text(name, |text| fs::remove_file(&self.rt, text));
        self.given(done).is_some()
    }

    // With two rooms by hand: no proof closes where one call by a name stands within another.
    fn try_rename(&self, from: &[u8], to: &[u8]) -> Result<()> {
        let mut first = ArrayVec::<u8, ROOM>::new();
        let mut second = ArrayVec::<u8, ROOM>::new();
        fs::rename(
            &self.rt,
            text_of(from, &mut first)?,
            text_of(to, &mut second)?,
        )
    }

    // Gives a file another name, in place of what has it.
    pub fn rename(&mut self, from: &[u8], to: &[u8]) -> bool {
        let done = self.try_rename(from, to);
        self.given(done).is_some()
    }

    // Makes a folder that was not there.
    pub fn make_folder(&mut self, name: &[u8]) -> bool {
        let done = self.by_text(name, |text| fs::create_dir(&self.rt, text));
        self.given(done).is_some()
    }
}

#[cfg(test)]
mod tests {
    use super::*;

    #[test]
    fn a_names_last_six_bytes_become_letters(rt: HostRuntime) {
        let mut name = *b"x.XXXXXX";
        put_letters(&mut name, &[0, 9, 10, 35, 36, 61]);
        assert!(rt; name == *b"x.09AZaz");
    }

    #[test]
    fn a_file_that_is_made_is_read_and_removed(rt: HostRuntime) {
        let mut host = Host::new(rt);
        let mut name = *b"host.XXXXXX";
        let made = host.create_temporary(&mut name);
        assert!(rt; made.is_some());
        let file = made.unwrap_or(-1);
        assert!(rt; host.write_all(file, b"0123456789"));
        assert!(rt; host.seek_end(file) == Some(10));
        let mut buffer = [0u8; 4];
        assert!(rt; host.read_at(file, &mut buffer, 7) == 3);
        assert!(rt; buffer == *b"789\0");
        assert!(rt; host.rewind(file));
        assert!(rt; host.read(file, &mut buffer) == 4);
        assert!(rt; buffer == *b"0123");
        assert!(rt; host.close(file));
        assert!(rt; host.create(&name) == None);
        assert!(rt; host.error() == ErrorKind::AlreadyExists);
        assert!(rt; host.remove(&name));
        assert!(rt; host.open_read(&name) == None);
        assert!(rt; host.error() == ErrorKind::NotFound);
    }

    #[test]
    fn a_name_that_is_no_text_is_told_by_characters(rt: HostRuntime) {
        let mut room = ArrayVec::<u8, 16>::new();
        assert!(rt;
            text_of(b"x\xff\x80", &mut room).is_ok_and(|text| text == "x\u{10ffff}\u{10ff80}")
        );
    }

    #[test]
    fn a_name_that_is_text_stays(rt: HostRuntime) {
        let mut room = ArrayVec::<u8, 0>::new();
        assert!(rt; text_of("x\u{e9}".as_bytes(), &mut room).is_ok_and(|text| text == "x\u{e9}"));
    }
}
