// What is wrong with one word of a space, by what is due where it stands.
ghost use Rattle.std.specs.Prelude.{◌≡◌, eqb, ◌%◌, ◌<◌};
ghost use Rattle.std.specs.Int.Count.{ones};
ghost use Rattle.refusal.specs.Reasons.{fault_number};
ghost use Rattle.packets.specs.Packet.{inverted, header_of};
ghost use Rattle.packets.specs.Fault.{fault_where};

use crate::due::What;
use refusal::Reason;
use words::{MOST_WORD, reserved};

// Nine bits with bit 9 the inverse of bit 8.
pub(crate) fn nine_bits(nine: u16) -> u16
    requires { nine < 512 }
    ensures { result ≡ inverted nine }
{
    nine + 512 * (1 - nine / 256)
}

// Even or odd: 1 where an odd number of bits is set.
fn parity(byte: u16) -> u16
    ensures { result ≡ ones byte % 2 }
{
    (u32::count_ones(byte as u32) % 2) as u16
}

// The header word of eight bits: bit 8 their even parity, bit 9 its inverse.
pub(crate) fn header_word(byte: u16) -> u16
    requires { byte < 256 }
    ensures { result ≡ header_of byte }
{
    nine_bits(byte + 256 * parity(byte))
}

// The low eight bits of a word, as a count.
pub(crate) fn low(word: u16) -> usize
    ensures { result ≡ word % 256 }
{
    (word % 256) as usize
}

// Whether a word is the header word of its low eight bits.
pub(crate) fn header_well(word: u16) -> bool
    ensures { result ≡ eqb word (header_of (word % 256)) }
{
    word == header_word(word % 256)
}

// What is wrong with a word where this is due: 5 comes first, and 15 before 17.
pub(crate) fn fault(due: What, word: u16) -> Option<Reason>
    ensures { fault_number result ≡ fault_where due word }
{
    if MOST_WORD < word {
        return Some(Reason::Over);
    }
    match due {
        What::Exactly { word: exact } => (word != exact).then_some(Reason::NoFill),
        What::Header => (!header_well(word)).then_some(Reason::BadParity),
        What::Count { room } => if header_well(word) {
            (room < low(word)).then_some(Reason::PacketPast)
        } else {
            Some(Reason::BadParity)
        },
        What::User => reserved(word).then_some(Reason::Reserved),
        What::Checksum { word: sum } => (word != sum).then_some(Reason::BadChecksum),
    }
}
