#![tactic(auto)]

ghost use Rattle.std.specs.Prelude.{◌≡◌};
ghost use Rattle.refusal.specs.Reasons.{number_of, numbered, answered};

// Every answer has a number and a place: number 0 is accepted, and place is 0 unless stated.
#[derive(Clone, Copy)]
pub struct Refusal {
    pub number: u32,
    pub place: usize,
}

impl Refusal {
    // Accepted.
    pub const NONE: Refusal = Refusal {
        number: 0,
        place: 0,
    };

    // The answer of a call that does no more than refuse.
    pub fn of(told: Result<(), Refused>) -> Refusal
        ensures { result ≡ answered told }
    {
        match told {
            Ok(()) => Refusal::NONE,
            Err(refused) => Refusal::from(refused),
        }
    }
}

// Why a call refuses: document 01's rows, and those that document 02 adds, in the words of their tables.
#[derive(Clone, Copy, Debug, PartialEq, Eq)]
pub enum Reason {
    // The system is neither 525 nor 625.
    NoSystem,
    // The line number is outside 1 to 525, or 1 to 625.
    NoLine,
    // A slice has the wrong length.
    WrongLength,
    // Lines read is 10,000,000 or more, or repairs exceed twice lines read.
    BadCounts,
    // A word is over 1023.
    Over,
    // One of the first three words of a timing code is wrong.
    NoCode,
    // Bit 9 of a fourth word is 0.
    BitNine,
    // Seven bits have no legal pattern within one bit, and an even number of ones.
    HopelessEven,
    // The corrected F, V, H are not those due here.
    NotDue,
    // Fill is due and is not there.
    NoFill,
    // A reserved word stands where a sample is due.
    Reserved,
    // A sample to be written is outside 4 to 1019.
    Outside,
    // Serial state: scrambled bits over 511 or last bit over 1.
    BadState,
    // Seven bits have no legal pattern within one bit, and an odd number of ones.
    HopelessOdd,
    // A header word of a packet has bad parity.
    BadParity,
    // A packet's checksum is wrong.
    BadChecksum,
    // A packet's user words and checksum run past the space.
    PacketPast,
    // The parts of a finished file do not fit, or its index is none.
    BadParts,
    // The lines asked for leave the file, or the first comes after the last.
    BadRange,
    // An entry of a packets file is none, does not rise, or is for a line that is not written.
    BadEntry,
}

impl Reason {
    // The number of its row.
    pub fn number(self) -> u32
        ensures { result ≡ number_of self }
    {
        match self {
            Reason::NoSystem => 1,
            Reason::NoLine => 2,
            Reason::WrongLength => 3,
            Reason::BadCounts => 4,
            Reason::Over => 5,
            Reason::NoCode => 6,
            Reason::BitNine => 7,
            Reason::HopelessEven => 8,
            Reason::NotDue => 9,
            Reason::NoFill => 10,
            Reason::Reserved => 11,
            Reason::Outside => 12,
            Reason::BadState => 13,
            Reason::HopelessOdd => 14,
            Reason::BadParity => 15,
            Reason::BadChecksum => 16,
            Reason::PacketPast => 17,
            Reason::BadParts => 19,
            Reason::BadRange => 20,
            Reason::BadEntry => 22,
        }
    }

    // Refused for this, at this place.
    pub fn at(self, place: usize) -> Refused
        ensures { result ≡ record { reason = self; place = place } }
    {
        Refused {
            reason: self,
            place,
        }
    }
}

// A refusal: why, and at which place.
#[derive(Clone, Copy, Debug, PartialEq, Eq)]
pub struct Refused {
    pub reason: Reason,
    pub place: usize,
}

impl From<Refused> for Refusal {
    ghost from_gives = { λ refused answer. answer ≡ numbered refused };

    fn from(refused: Refused) -> Refusal {
        Refusal {
            number: refused.reason.number(),
            place: refused.place,
        }
    }
}

// Document 01's numbers of refusals, and those that document 02 adds, in the words of their tables.
#[derive(Clone, Copy)]
pub struct Number;

impl Number {
    // The system is neither 525 nor 625.
    pub const NO_SYSTEM: u32 = 1;

    // The line number is outside 1 to 525, or 1 to 625.
    pub const NO_LINE: u32 = 2;

    // A slice has the wrong length.
    pub const WRONG_LENGTH: u32 = 3;

    // Lines read is 10,000,000 or more, or repairs exceed twice lines read.
    pub const BAD_COUNTS: u32 = 4;

    // A word is over 1023.
    pub const OVER: u32 = 5;

    // One of the first three words of a timing code is wrong.
    pub const NO_CODE: u32 = 6;

    // Bit 9 of a fourth word is 0.
    pub const BIT_NINE: u32 = 7;

    // Seven bits have no legal pattern within one bit, and an even number of ones.
    pub const HOPELESS_EVEN: u32 = 8;

    // The corrected F, V, H are not those due here.
    pub const NOT_DUE: u32 = 9;

    // Fill is due and is not there.
    pub const NO_FILL: u32 = 10;

    // A reserved word stands where a sample is due.
    pub const RESERVED: u32 = 11;

    // A sample to be written is outside 4 to 1019.
    pub const OUTSIDE: u32 = 12;

    // Serial state: scrambled bits over 511 or last bit over 1.
    pub const BAD_STATE: u32 = 13;

    // Seven bits have no legal pattern within one bit, and an odd number of ones.
    pub const HOPELESS_ODD: u32 = 14;

    // A header word of a packet has bad parity.
    pub const BAD_PARITY: u32 = 15;

    // A packet's checksum is wrong.
    pub const BAD_CHECKSUM: u32 = 16;

    // A packet's user words and checksum run past the space.
    pub const PACKET_PAST: u32 = 17;

    // The parts of a finished file do not fit, or its index is none.
    pub const BAD_PARTS: u32 = 19;

    // The lines asked for leave the file, or the first comes after the last.
    pub const BAD_RANGE: u32 = 20;

    // An entry of a packets file is none, does not rise, or is for a line that is not written.
    pub const BAD_ENTRY: u32 = 22;
}
