// What is due at an offset of a space, by the packet or the fill that holds it. The words of the line are given as far as its space goes.
ghost use Rattle.std.specs.Prelude.{◌≡◌, ◌&&◌, cond, ◌+◌, ◌-◌, ◌<◌, ◌≤◌, eqb, length};
ghost use Rattle.packets.specs.Due.{starts_at, size_at, due_in, due_from};
ghost use Rattle.packets.specs.Fault.{word_at};
ghost use Rattle.packets.specs.Passes.{Summed};

use crate::fault::{low, nine_bits};
use words::{FillWords, MOST_WORD};

// What is due at one offset: this very word (of a packet's first three, or fill), an identifier, the count with so many user words of room, a
// user word, or this checksum.
#[derive(Clone, Copy)]
pub enum What {
    Exactly { word: u16 },
    Header,
    Count { room: usize },
    User,
    Checksum { word: u16 },
}

// The fewest words of a packet: one without user words.
pub(crate) const LEAST_SIZE: usize = 7;

// Whether a packet starts at an offset of a space: where seven words are left and the first three are 0, 1023, 1023.
#[tactic(auto, using(crate::proofs::Openings::no_room, crate::proofs::Openings::by_three))]
pub(crate) fn starts(words: &[u16], p: usize) -> bool
    ensures { result ≡ starts_at (word_at words.now) (length words.now) p }
{
    if words.len() < LEAST_SIZE || words.len() - LEAST_SIZE < p {
        return false;
    }
    (words[p] == 0) & (words[p + 1] == MOST_WORD) & (words[p + 2] == MOST_WORD)
}

// How many words the packet at an offset takes.
pub(crate) fn size(words: &[u16], p: usize) -> usize
    requires { p + 5 < length words.now }
    ensures { result ≡ size_at (word_at words.now) p }
{
    LEAST_SIZE + low(words[p + 5])
}

// The packet or the fill that holds an offset: where it starts, and the sum, modulo 512, of its words before the offset that a checksum covers.
#[derive(Clone, Copy)]
pub(crate) struct Holder {
    pub start: usize,
    pub sum: u16,
}

impl Holder {
    // What is due k words after the start of a packet.
    #[tactic(auto, unfolding(crate::specs::Due::due_in, crate::specs::Packet::checksum_of))]
    fn due_in(self, words: &[u16], k: usize) -> What
        requires { (self.start + 6 < length words.now) × Summed (word_at words.now) self (self.start + k) }
        ensures { result ≡ due_in (word_at words.now) (length words.now) self.start k }
    {
        match k {
            0 => What::Exactly { word: 0 },
            1 | 2 => What::Exactly { word: MOST_WORD },
            3 | 4 => What::Header,
            5 => What::Count {
                room: words.len() - (self.start + LEAST_SIZE),
            },
            _ if k < 6 + low(words[self.start + 5]) => What::User,
            _ => What::Checksum {
                word: nine_bits(self.sum),
            },
        }
    }

    // What is due at an offset that it holds.
    #[tactic(auto, using(crate::proofs::Openings::started), unfolding(crate::specs::Due::due_from))]
    pub(crate) fn due(self, words: &[u16], fill: FillWords, i: usize) -> What
        requires { Summed (word_at words.now) self i }
        ensures { result ≡ due_from (word_at words.now) (length words.now) fill.even fill.odd self.start i }
    {
        if starts(words, self.start) {
            return self.due_in(words, i - self.start);
        }
        What::Exactly { word: fill.at(i) }
    }

    // What holds the offset behind one that it holds: where a packet ends, another or fill starts.
    pub(crate) fn next(self, words: &[u16], i: usize) -> Holder
        requires { (i < length words.now) × Summed (word_at words.now) self i }
        ensures start { result.start ≡ cond (starts_at (word_at words.now) (length words.now) self.start && eqb (i + 1) (self.start + size_at (word_at words.now) self.start)) (i + 1) self.start }
        ensures sum { Summed (word_at words.now) result (i + 1) }
    {
        if starts(words, self.start) && i + 1 == self.start + size(words, self.start) {
            return Holder {
                start: i + 1,
                sum: 0,
            };
        }
        if i - self.start < 3 {
            return self;
        }
        Holder {
            start: self.start,
            sum: (self.sum + words[i] % 512) % 512,
        }
    }
}
