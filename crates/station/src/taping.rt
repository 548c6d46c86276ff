// A tape with what stands beside it: where its lines are written, and the packets that go with them.
use crate::entries::Entries;
use crate::turning::Turning;
use host::{Host, OUTPUT};
use programme::Tape;

// Where lines are written: a descriptor, and the number of its recording in the folder, where there is one.
#[derive(Clone, Copy)]
pub(crate) struct Output {
    pub(crate) file: i32,
    pub(crate) piece: Option<u32>,
}

pub(crate) const STANDARD: Output = Output {
    file: OUTPUT,
    piece: None,
};

// A tape and where it is written, and the packets for it.
#[derive(Clone, Copy)]
pub(crate) struct Taping {
    pub(crate) tape: Tape,
    pub(crate) output: Output,
    pub(crate) entries: Entries,
}

impl Turning for Taping {
    fn show(self, host: &mut Host, is_shown: bool, turns: u64) {
        console::show_turn(host, is_shown, turns, self.tape.walk);
    }
}
