// Packets for people: a line of text for each.
ghost use Rattle.std.specs.Prelude.{◌≤◌, length, IfSome};

use arrayvec::ArrayVec;
use captions::{ACTIVE, Entry};
use host::{Host, OUTPUT};

// Where in a packet's bytes the low bytes of its header words stand, and how many bytes it has without user words.
const DATA_IDENTIFIER: usize = 6;

const SECOND_IDENTIFIER: usize = 8;

const COUNT: usize = 10;

const LEAST: usize = 14;

// A space of a line: the line's ordinal and number, and which of its spaces it is.
#[derive(Clone, Copy)]
pub(crate) struct Space {
    pub(crate) ordinal: u64,
    pub(crate) line: u32,
    pub(crate) space: u32,
}

impl Space {
    // The entry of so many packet words of it.
    pub(crate) fn entry(self, words: u32) -> Entry {
        Entry {
            ordinal: self.ordinal,
            space: self.space,
            words,
        }
    }
}

// Puts a number in decimal digits behind a text. By the kit's digits: a write! with all six took half as long again for the whole list.
fn put_number<const N: usize>(text: &mut ArrayVec<u8, N>, number: u64) {
    let mut digits = [0u8; 20];
    let count = io::decimal(number, &mut digits);
    console::put(text, &digits[..count]);
}

// Puts a blank and an identifier in two hexadecimal digits behind a text.
fn put_identifier<const N: usize>(text: &mut ArrayVec<u8, N>, identifier: u8) {
    let mut digits = [0u8; 16];
    let count = io::hex(u64::from(identifier), 2, &mut digits);
    console::put(text, b" ");
    console::put(text, &digits[..count]);
}

// Writes a packet's line by way of a text: the ordinal and the number of its line, its space, its two identifiers, and how many user words it has.
fn list_packet<const N: usize>(
    host: &mut Host,
    space: Space,
    packet: &[u8],
    text: &mut ArrayVec<u8, N>,
) -> bool
    requires { 14 ≤ length packet.now }
{
    text.clear();
    let name: &[u8] = if space.space == ACTIVE {
        b" active"
    } else {
        b" between"
    };
    put_number(text, space.ordinal);
    console::put(text, b" ");
    put_number(text, u64::from(space.line));
    console::put(text, name);
    put_identifier(text, packet[DATA_IDENTIFIER]);
    put_identifier(text, packet[SECOND_IDENTIFIER]);
    console::put(text, b" ");
    put_number(text, u64::from(packet[COUNT]));
    console::put(text, b"\n");
    host.write_all(OUTPUT, text.as_slice())
}

// How many bytes the packet at the start of these has, where one is there.
fn packet_size(bytes: &[u8]) -> Option<usize>
    ensures { IfSome result (λ size. (14 ≤ size) × (size ≤ length bytes.now)) }
{
    if bytes.len() < LEAST {
        return None;
    }
    let size = LEAST + 2 * usize::from(bytes[COUNT]);
    (size <= bytes.len()).then_some(size)
}

// Writes a line for each packet of a space, whose bytes these are. True where all were written.
pub(crate) fn list_space(host: &mut Host, space: Space, bytes: &[u8]) -> bool {
    let mut text = ArrayVec::<u8, 96>::new();
    let mut rest = bytes;
    while let Some(size) = packet_size(rest) {
        if !list_packet(host, space, &rest[..size], &mut text) {
            return false;
        }
        rest = &rest[size..];
    }
    true
}
