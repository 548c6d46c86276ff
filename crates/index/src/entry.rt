// An entry of the index: a line that was not clean.
ghost use Rattle.std.specs.Prelude.{◌≡◌, length};
ghost use Rattle.refusal.specs.Reasons.{answered};
ghost use Rattle.index.specs.Entries.{entry_length, entry_of, entry_bytes, entry_well};
ghost use Rattle.index.specs.Parts.{room_refusal, entry_after};

use crate::room::put_bytes;
use refusal::Refused;

// The bytes of an entry: ordinal (4), repairs (2), low byte first.
pub const ENTRY_LENGTH: usize = 6;

// A line that was not clean: its ordinal from 0, and how many of its codes were repaired.
#[derive(Clone, Copy, Debug, PartialEq, Eq)]
pub struct Entry {
    pub ordinal: u32,
    pub repairs: u32,
}

impl Entry {
    // The entry of six bytes.
    #[tactic(auto, unfolding(crate::specs::Entries::entry_of, words::specs::Bytes::number_from))]
    pub fn of(bytes: [u8; ENTRY_LENGTH]) -> Entry
        ensures { result ≡ entry_of bytes }
    {
        let [b0, b1, b2, b3, b4, b5] = bytes;
        Entry {
            ordinal: u32::from_le_bytes([b0, b1, b2, b3]),
            repairs: u32::from(u16::from_le_bytes([b4, b5])),
        }
    }

    // Whether it may stand where this ordinal is the least: it is below the lines, with 1 or 2 repairs.
    #[tactic(auto, unfolding(crate::specs::Entries::entry_well))]
    pub(crate) fn well(self, least: u64, lines: u32) -> bool
        ensures { result ≡ entry_well least lines self }
    {
        (least <= u64::from(self.ordinal))
            & (self.ordinal < lines)
            & ((self.repairs == 1) | (self.repairs == 2))
    }

    // Its six bytes. Of the repairs the low 16 bits count.
    fn bytes(self) -> [u8; ENTRY_LENGTH]
        ensures { result ≡ entry_bytes self }
    {
        let mut bytes = [0; ENTRY_LENGTH];
        bytes[..4].copy_from_slice(&self.ordinal.to_le_bytes());
        bytes[4..].copy_from_slice(&self.repairs.to_le_bytes()[..2]);
        bytes
    }

    // Puts the entry into bytes: 3 where they are not six, and then nothing is written. Of the repairs the low 16 bits count.
    #[tactic(auto, unfolding(crate::specs::Parts::entry_after))]
    pub fn put(self, room: &mut [u8]) -> Result<(), Refused>
        ensures answer { answered result ≡ room_refusal entry_length (length room.old) }
        ensures room { room.new ≡ entry_after self room.old }
    {
        put_bytes(&self.bytes(), room)
    }
}
