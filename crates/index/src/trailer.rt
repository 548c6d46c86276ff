// The trailer that ends a finished file.
ghost use Rattle.std.specs.Prelude.{◌≡◌, length};
ghost use Rattle.refusal.specs.Reasons.{answered};
ghost use Rattle.index.specs.Parts.{trailer_length, trailer_of, trailer_bytes, trailer_after, room_refusal};
ghost use Rattle.index.specs.Asking.{trailer_fits};

use crate::room::put_bytes;
use refusal::Refused;
use system::Walk;

// The bytes of a trailer: index offset (8), entries (4), lines (4), low byte first.
pub const TRAILER_LENGTH: usize = 16;

// Where the index starts, how many entries it has, and of how many lines.
#[derive(Clone, Copy, Debug, Default, PartialEq, Eq)]
pub struct Trailer {
    pub offset: u64,
    pub entries: u32,
    pub lines: u32,
}

impl Trailer {
    // What a trailer tells. Bytes that are not sixteen tell nothing.
    #[tactic(auto, unfolding(crate::specs::Parts::trailer_of, words::specs::Bytes::number_from))]
    pub fn of(bytes: &[u8]) -> Trailer
        ensures { result ≡ trailer_of bytes.now }
    {
        if bytes.len() != TRAILER_LENGTH {
            return Trailer::default();
        }
        Trailer {
            offset: u64::from_le_bytes([
                bytes[0], bytes[1], bytes[2], bytes[3], bytes[4], bytes[5], bytes[6], bytes[7],
            ]),
            entries: u32::from_le_bytes([bytes[8], bytes[9], bytes[10], bytes[11]]),
            lines: u32::from_le_bytes([bytes[12], bytes[13], bytes[14], bytes[15]]),
        }
    }

    // Whether its numbers fit each other and a file of so many bytes, with lines of this size. A product or a sum that no u64 holds is none.
    #[tactic(auto, unfolding(crate::specs::Asking::trailer_fits))]
    pub(crate) fn fits(self, size: u64, length: u64) -> bool
        ensures { result ≡ trailer_fits size self length }
    {
        self.lines <= Walk::MOST_LINES
            && u64::from(self.lines).checked_mul(size) == Some(self.offset)
            && self.offset.checked_add(6 * u64::from(self.entries) + 16) == Some(length)
    }

    // Its sixteen bytes.
    fn bytes(self) -> [u8; TRAILER_LENGTH]
        ensures { result ≡ trailer_bytes self }
    {
        let mut bytes = [0; TRAILER_LENGTH];
        bytes[..8].copy_from_slice(&self.offset.to_le_bytes());
        bytes[8..12].copy_from_slice(&self.entries.to_le_bytes());
        bytes[12..].copy_from_slice(&self.lines.to_le_bytes());
        bytes
    }

    // Puts the trailer into bytes: 3 where they are not sixteen, and then nothing is written.
    #[tactic(auto, unfolding(crate::specs::Parts::trailer_after))]
    pub fn put(self, room: &mut [u8]) -> Result<(), Refused>
        ensures answer { answered result ≡ room_refusal trailer_length (length room.old) }
        ensures room { room.new ≡ trailer_after self room.old }
    {
        put_bytes(&self.bytes(), room)
    }
}
