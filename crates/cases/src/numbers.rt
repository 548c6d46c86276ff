// The numbers of an answer, by value: a call that hands on one number costs far less to prove than one that is lent the answer.
use refusal::{Refusal, Refused};
use system::{Judgement, PacketWords, Walk};
use timing::{CodeReport, Report};

// The most numbers of an answer: those of a question to a finished file.
pub(crate) const MOST_NUMBERS: usize = 17;

// So many numbers, the first of the list. More than the list has room for are no answer.
#[derive(Clone, Copy)]
pub struct Numbers {
    pub(crate) count: usize,
    pub(crate) list: [u32; MOST_NUMBERS],
}

fn with_next(count: usize, list: [u32; MOST_NUMBERS], number: u32) -> Numbers {
    let mut next = list;
    if MOST_NUMBERS <= count {
        return Numbers {
            count: MOST_NUMBERS + 1,
            list: next,
        };
    }
    next[count] = number;
    Numbers {
        count: count + 1,
        list: next,
    }
}

impl Numbers {
    pub fn none() -> Numbers {
        Numbers {
            count: 0,
            list: [0; MOST_NUMBERS],
        }
    }

    pub fn one(number: u32) -> Numbers {
        Numbers::none().with(number)
    }

    pub fn with(self, number: u32) -> Numbers {
        with_next(self.count, self.list, number)
    }

    pub fn with_byte(self, byte: u8) -> Numbers {
        self.with(u32::from(byte))
    }

    // 1 for what is so, 0 for what is not.
    pub fn with_truth(self, is_so: bool) -> Numbers {
        self.with(u32::from(is_so))
    }

    // A number of 64 bits, the lower half first.
    pub fn with_wide(self, wide: u64) -> Numbers {
        let [a, b, c, d, e, f, g, h] = wide.to_le_bytes();
        self.with(u32::from_le_bytes([a, b, c, d]))
            .with(u32::from_le_bytes([e, f, g, h]))
    }

    // A place, or a count, as a number: each that a call answers is within 32 bits.
    pub fn with_place(self, place: usize) -> Numbers {
        match u32::try_from(place) {
            Ok(number) => self.with(number),
            Err(_) => with_next(MOST_NUMBERS, self.list, 0),
        }
    }

    pub fn of_result(answered: Result<(), Refused>) -> Numbers {
        let answer = Refusal::of(answered);
        Numbers::one(answer.number).with_place(answer.place)
    }

    pub fn with_walk(self, walk: Walk) -> Numbers {
        self.with(walk.system)
            .with(walk.line)
            .with(walk.lines)
            .with(walk.repairs)
            .with(walk.fallen)
            .with(walk.tally)
    }

    // Whether a code was repaired, and the bit.
    pub fn with_code_report(self, report: CodeReport) -> Numbers {
        match report {
            CodeReport::Clean => self.with(0).with(0),
            CodeReport::Repaired { bit } => self.with(1).with(bit),
        }
    }

    fn with_report(self, report: Report) -> Numbers {
        self.with_code_report(report.eav)
            .with_code_report(report.sav)
    }

    fn with_packets(self, packets: PacketWords) -> Numbers {
        self.with_place(packets.between).with_place(packets.active)
    }

    pub fn of_judgement(judgement: Judgement) -> Numbers {
        Numbers::one(judgement.number)
            .with_place(judgement.place)
            .with_report(judgement.report)
            .with_walk(judgement.walk)
            .with_packets(judgement.packets)
    }
}
