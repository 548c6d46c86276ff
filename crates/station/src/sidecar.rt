// What becomes of the packets of lines, beside their rows: they are counted, written to a packets file, or listed for people.
ghost use Rattle.std.specs.Prelude.{◌≡◌, ◌+◌, ◌%◌, ◌^◌, ◌≤◌, true, if◌then◌else◌};
ghost use Rattle.captions.specs.Entry.{most_words};
ghost use Rattle.station.specs.Turns.{has_packets, behind_line, are_listed};

use crate::listing::{Space, list_space};
use captions::{ACTIVE, BETWEEN, Entry, HEAD_LENGTH, MOST_WORDS};
use host::Host;
use line::BETWEEN_OFFSET;
use std::num::wrapping_add_u64;
use system::{PacketWords, Walk};

// Where packets go: lines that have some are counted, or they are written to a file, or listed for people.
#[derive(Clone, Copy)]
pub(crate) enum Kept {
    Counted,
    Written(i32),
    Listed,
}

// Where packets go, the awaited line's ordinal, and how many lines had some.
#[derive(Clone, Copy)]
pub struct Sidecar {
    kept: Kept,
    ordinal: u64,
    lines: u64,
}

// Whether so many packet words stand from an offset on of so many words, and are not more than a space holds.
fn is_within(words: usize, start: usize, count: usize) -> bool
    ensures { result ≡ true → (start + count ≤ words) × (count ≤ most_words) }
{
    start <= words && count <= words - start && count <= MOST_WORDS
}

// Whether there are packets.
fn has_packets(packets: PacketWords) -> bool
    ensures { result ≡ has_packets packets }
{
    packets.between != 0 || packets.active != 0
}

// One line more that has packets, or none more.
fn counted(lines: u64, some: bool) -> u64
    ensures { result ≡ (if some then (lines + 1) % 2 ^ 64 else lines) }
{
    wrapping_add_u64(lines, u64::from(some))
}

// Writes an entry with these bytes of words. True where all of it was written.
fn put_entry(host: &mut Host, file: i32, entry: Entry, bytes: &[u8]) -> bool {
    let mut head = [0u8; HEAD_LENGTH];
    captions::put_head(entry, &mut head).unwrap();
    host.write_all(file, &head) && host.write_all(file, bytes)
}

impl Sidecar {
    // Lines with packets are counted.
    pub const NONE: Sidecar = Sidecar {
        kept: Kept::Counted,
        ordinal: 0,
        lines: 0,
    };

    // Packets are listed.
    pub const LISTED: Sidecar = Sidecar {
        kept: Kept::Listed,
        ordinal: 0,
        lines: 0,
    };

    // Packets are written to this file; lines are counted where the number is no file's.
    pub fn of(file: i32) -> Sidecar {
        if file < 0 {
            return Sidecar::NONE;
        }
        Sidecar {
            kept: Kept::Written(file),
            ..Sidecar::NONE
        }
    }

    // How many lines had packets that are neither written nor listed.
    pub fn lines_left(self) -> u64 {
        match self.kept {
            Kept::Counted => self.lines,
            Kept::Written(_) | Kept::Listed => 0,
        }
    }

    // Whether packets are listed, and rows then not written.
    pub(crate) fn are_listed(self) -> bool
        ensures { result ≡ are_listed self.kept }
    {
        matches!(self.kept, Kept::Listed)
    }

    // The same behind a line with so many packet words.
    #[tactic(auto, unfolding(crate::specs::Turns::behind_line))]
    pub(crate) fn behind(self, packets: PacketWords) -> Sidecar
        ensures { result ≡ behind_line self packets }
    {
        Sidecar {
            ordinal: wrapping_add_u64(self.ordinal, 1),
            lines: counted(self.lines, has_packets(packets)),
            ..self
        }
    }

    // The space of the line that this walk awaited.
    fn space(self, walk: Walk, space: u32) -> Space {
        Space {
            ordinal: self.ordinal,
            line: walk.line,
            space,
        }
    }

    // Puts so many packet words of a space, of which these are the bytes.
    fn put_words(self, host: &mut Host, space: Space, words: u32, bytes: &[u8]) -> bool {
        match self.kept {
            Kept::Counted => true,
            Kept::Written(file) => put_entry(host, file, space.entry(words), bytes),
            Kept::Listed => list_space(host, space, bytes),
        }
    }

    // The same of a line's bytes, from a word's offset on. A space without packets has nothing to put.
    fn put_space(
        self,
        host: &mut Host,
        space: Space,
        bytes: &[u8],
        start: usize,
        count: usize,
    ) -> bool {
        if count == 0 {
            return true;
        }
        if !is_within(bytes.len() / 2, start, count) {
            return false;
        }
        self.put_words(
            host,
            space,
            count as u32,
            &bytes[2 * start..2 * (start + count)],
        )
    }

    // Puts the packets of the line that this walk awaited, of which these are the bytes. True where all were put.
    pub(crate) fn put(
        self,
        host: &mut Host,
        walk: Walk,
        bytes: &[u8],
        packets: PacketWords,
    ) -> bool {
        let active_offset = system::system_of(walk.system).active_offset();
        let between = self.space(walk, BETWEEN);
        let active = self.space(walk, ACTIVE);
        self.put_space(host, between, bytes, BETWEEN_OFFSET, packets.between)
            && self.put_space(host, active, bytes, active_offset, packets.active)
    }
}
