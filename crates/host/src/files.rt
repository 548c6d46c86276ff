// Files that are open, by their numbers.
use crate::{
    ERRORS, Host, INPUT, INTERRUPTED, INVALID, NO_DISK, NOT_OPEN, OUTPUT, SLOTS, TOO_MANY,
};
use arrayvec::ArrayVec;
use std::fs::File;
use std::io::{Error, ErrorKind, IsTerminal, Read, Result, Seek, SeekFrom, Write};
use std::os::fd::AsRawFd;
use std::os::unix::fs::FileExt;
use std::thread;
use std::time::Duration;

// How long a call waits before it is made again, where a file or a stream is not ready.
const PAUSE: u64 = 200;

// What a call on a file comes to that is not open here.
fn not_open() -> Error {
    Error::from_raw_os_error(NOT_OPEN)
}

// Whether a slot holds the file of this number.
fn holds(slot: &Option<File>, file: i32) -> bool {
    slot.as_ref().is_some_and(|open| open.as_raw_fd() == file)
}

impl Host {
    // The file of this number, where it is open here.
    fn file(&self, file: i32) -> Option<&File> {
        self.files
            .iter()
            .flatten()
            .find(|open| open.as_raw_fd() == file)
    }

    // Keeps a file that is open, and answers its number.
    fn keep(&mut self, file: File) -> Result<i32> {
        let number = file.as_raw_fd();
        for slot in &mut self.files {
            if slot.is_none() {
                *slot = Some(file);
                return Ok(number);
            }
        }
        Err(Error::from_raw_os_error(TOO_MANY))
    }

    // Keeps a file that was opened, and answers its number, or none where opening failed.
    pub(crate) fn opened(&mut self, opened: Result<File>) -> Option<i32> {
        let file = self.given(opened)?;
        let kept = self.keep(file);
        self.given(kept)
    }

    fn try_close(&mut self, file: i32) -> Result<()> {
        for slot in &mut self.files {
            if holds(slot, file) {
                *slot = None;
                return Ok(());
            }
        }
        Err(not_open())
    }

    // Closes a file. False where it was not open here.
    pub fn close(&mut self, file: i32) -> bool {
        let closed = self.try_close(file);
        self.given(closed).is_some()
    }

    // Whether a call that failed is to be made again: a signal cut it short, or what it needs was not ready and is waited for.
    fn again(&self, error: Error) -> bool {
        match error.kind() {
            ErrorKind::Interrupted => true,
            ErrorKind::WouldBlock => {
                thread::sleep(&self.rt, Duration::from_micros(PAUSE));
                true
            }
            _ => false,
        }
    }

    fn try_read(&self, file: i32, buffer: &mut [u8]) -> Result<usize> {
        match (self.file(file), file) {
            (Some(mut open), _) => open.read(buffer),
            (None, INPUT) => self.rt.stdin().read(buffer),
            (None, _) => Err(not_open()),
        }
    }

    fn try_read_at(&self, file: i32, buffer: &mut [u8], offset: u64) -> Result<usize> {
        self.file(file).ok_or(not_open())?.read_at(buffer, offset)
    }

    fn try_write(&self, file: i32, bytes: &[u8]) -> Result<usize> {
        match (self.file(file), file) {
            (Some(mut open), _) => open.write(bytes),
            (None, OUTPUT) => self.rt.stdout().write(bytes),
            (None, ERRORS) => self.rt.stderr().write(bytes),
            (None, _) => Err(not_open()),
        }
    }

    // Makes a call until it is not to be made again. None where it failed. A proved loop has to end: no call is made as often as this one may be.
    fn repeated<F: FnMut(&Host) -> Result<usize>>(&mut self, mut call: F) -> Option<usize>
        requires { F.IsAlwaysCallable call }
    {
        for _ in 0..u64::MAX {
            let called = call(self);
            match called {
                Err(error) if self.again(error) => {}
                _ => return self.given(called),
            }
        }
        self.given(Err(Error::from_raw_os_error(INTERRUPTED)))
    }

    // Reads once from a file into a buffer. Answers how many bytes came, 0 at the end, or -1 where reading failed: the count as the system gives
    // it, which `intake::tells` takes.
    pub fn read(&mut self, file: i32, buffer: &mut [u8]) -> isize {
        self.repeated(|host| host.try_read(file, buffer))
            .map_or(-1, |count| count.cast_signed())
    }

    // The same from an offset of the file on, which leaves the place where it is read.
    pub fn read_at(&mut self, file: i32, buffer: &mut [u8], offset: u64) -> isize {
        self.repeated(|host| host.try_read_at(file, buffer, offset))
            .map_or(-1, |count| count.cast_signed())
    }

    // Writes bytes. True where all of them were written.
    pub fn write_all(&mut self, file: i32, bytes: &[u8]) -> bool {
        let mut rest = bytes;
        while rest.len() > 0 {
            match self.repeated(|host| host.try_write(file, rest)) {
                Some(count) if count > 0 => rest = &rest[count.min(rest.len())..],
                _ => return false,
            }
        }
        true
    }

    // Writes a number in decimal digits. True where all of them were written.
    pub fn print_decimal(&mut self, file: i32, number: u64) -> bool {
        let mut digits = ArrayVec::<u8, 20>::new();
        let _ = write!(digits, "{number}");
        self.write_all(file, digits.as_slice())
    }

    fn try_seek(&self, file: i32, to: SeekFrom) -> Result<u64> {
        let mut open = self.file(file).ok_or(not_open())?;
        open.seek(to)
    }

    // Moves the place where a file is read or written, and answers it, or none where that failed.
    fn seek(&mut self, file: i32, to: SeekFrom) -> Option<u64> {
        let moved = self.try_seek(file, to);
        self.given(moved)
    }

    // The place of a file's end, which is read on from there, or none where that failed.
    pub fn seek_end(&mut self, file: i32) -> Option<u64> {
        self.seek(file, SeekFrom::End(0))
    }

    // Reads a file from its start again.
    pub fn rewind(&mut self, file: i32) -> bool {
        self.seek(file, SeekFrom::Start(0)).is_some()
    }

    fn try_sync(&self, file: i32) -> Result<()> {
        self.file(file).ok_or(not_open())?.sync_all()
    }

    // Waits until what was written to a file is on its disk.
    pub fn sync(&mut self, file: i32) -> bool {
        let synced = self.try_sync(file);
        self.given(synced).is_some()
    }

    // Closes a file that was written. What was written may fail as late as that, and closing tells nothing, so it is waited for before; what is
    // no file on a disk has nothing to wait for.
    pub fn close_written(&mut self, file: i32) -> bool {
        let is_written = self.sync(file) || self.error == INVALID || self.error == NO_DISK;
        self.close(file) && is_written
    }

    // Whether a file or a standard stream is a terminal.
    pub fn is_terminal(&self, file: i32) -> bool {
        match (self.file(file), file) {
            (Some(open), _) => open.is_terminal(),
            (None, INPUT) => self.rt.stdin().is_terminal(),
            (None, OUTPUT) => self.rt.stdout().is_terminal(),
            (None, ERRORS) => self.rt.stderr().is_terminal(),
            (None, _) => false,
        }
    }
}
