// A folder of numbered recordings, 0001.rec and on: one programme in a row of files. What comes of these calls is up to the system, so no
// contract can determine it.
#![tactic(auto)]

use arrayvec::ArrayVec;
use host::Host;
use std::io::{ErrorKind, Write};

// The most recordings that four digits number.
pub const MOST: u32 = 9999;

// Room for a recording's path.
const ROOM: usize = 4096;

// The folder's name without a slash at its end.
fn bare(folder: &[u8]) -> &[u8] {
    folder.strip_suffix(b"/").unwrap_or(folder)
}

// Puts the end of a recording's name into a text: the last four digits of its number.
fn put_ending<const N: usize>(text: &mut ArrayVec<u8, N>, number: u32) {
    let _ = write!(text, "/{:04}.rec", number % (MOST + 1));
}

// Makes a path a recording's name. One that is too long for it is cut here, and longer than what the system opens, so it opens nothing.
fn name<const N: usize>(folder: &[u8], number: u32, path: &mut ArrayVec<u8, N>) {
    path.clear();
    console::put(path, bare(folder));
    put_ending(path, number);
}

// Writes a recording's name. True where all of it was written.
pub fn say_name(host: &mut Host, output: i32, folder: &[u8], number: u32) -> bool {
    let mut ending = ArrayVec::<u8, 16>::new();
    put_ending(&mut ending, number);
    console::say_name(host, output, bare(folder)) && host.write_all(output, ending.as_slice())
}

// Opens a recording for reading. The path becomes its name.
pub fn open<const N: usize>(
    host: &mut Host,
    folder: &[u8],
    number: u32,
    path: &mut ArrayVec<u8, N>,
) -> Option<i32> {
    name(folder, number, path);
    host.open_read(path.as_slice())
}

// Makes a recording that was not there, and opens it for writing. The path becomes its name.
pub fn make<const N: usize>(
    host: &mut Host,
    folder: &[u8],
    number: u32,
    path: &mut ArrayVec<u8, N>,
) -> Option<i32> {
    name(folder, number, path);
    host.create(path.as_slice())
}

// Whether a recording is there: also one that may not be read.
fn is_there(host: &mut Host, folder: &[u8], number: u32) -> bool {
    let mut path = ArrayVec::<u8, ROOM>::new();
    match open(host, folder, number, &mut path) {
        Some(file) => {
            host.close(file);
            true
        }
        None => host.error() != ErrorKind::NotFound,
    }
}

// The highest number that is there, or none.
pub fn last(host: &mut Host, folder: &[u8]) -> Option<u32> {
    (1..=MOST)
        .rev()
        .find(|number| is_there(host, folder, *number))
}

// Whether a name is a folder's.
pub fn is_folder(host: &mut Host, name: &[u8]) -> bool {
    if name.is_empty() {
        return false;
    }
    let mut path = ArrayVec::<u8, ROOM>::new();
    console::put(&mut path, name);
    console::put(&mut path, b"/.");
    host.open_read(path.as_slice())
        .is_some_and(|file| host.close(file))
}
