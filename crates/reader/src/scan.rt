// The lowest offset of a line with any fault.
ghost use Rattle.std.specs.Prelude.{◌≡◌, cond, ◌<◌};
ghost use Rattle.refusal.specs.Answer.{none};
ghost use Rattle.refusal.specs.Reasons.{answered, fault_number};
ghost use Rattle.line.specs.Offsets.{due_at};
ghost use Rattle.line.specs.Fault.{word_refusal, fault_where};
ghost use Rattle.reader.specs.Passes.{part_start, part_is_space, part_space, words_start};

use crate::fault::fault;
use crate::whole::Whole;
use line::BETWEEN_OFFSET;
use packets::judge_space;
use refusal::{Reason, Refused};
use system::System;

// Where a part of a line starts: EAV, the blanking between, SAV, the active part; after them, where the line ends. By number, and no enum: a part
// ends where the next one starts, and what follows the last is none.
fn part_start(system: System, part: usize) -> usize
    ensures { result ≡ part_start system part }
{
    match part {
        0 => 0,
        1 => BETWEEN_OFFSET,
        2 => system.sav_offset(),
        3 => system.active_offset(),
        _ => system.line_length(),
    }
}

impl Whole<'_> {
    // Whether a part is a space: the blanking between, and on lines with V = 1 the active part.
    fn is_space(&self, part: usize) -> bool
        ensures { result ≡ part_is_space self.now.due part }
    {
        match part {
            1 => true,
            3 => self.due.v,
            _ => false,
        }
    }

    // What refuses a part that is a space: its packets and fill are judged together. Of another part nothing.
    fn space_fault(&self, part: usize) -> Result<(), Refused>
        requires { part < 4 }
        ensures { answered result ≡ cond (part_is_space self.now.due part) (part_space self.now.due part self.now.words.now) none }
    {
        if self.is_space(part) {
            let start = part_start(self.due.system, part);
            let end = part_start(self.due.system, part + 1);
            judge_space(self.words, start, end, self.due.fill)?;
        }
        Ok(())
    }

    // Where a part's words are looked at one by one: from its start, or nowhere where it is a space.
    fn words_start(&self, part: usize) -> usize
        requires { part < 4 }
        ensures { result ≡ words_start self.now.due part }
    {
        if self.is_space(part) {
            part_start(self.due.system, part + 1)
        } else {
            part_start(self.due.system, part)
        }
    }

    // What is wrong with a word by what the offset alone says is due there.
    fn fault_at(&self, offset: usize, word: u16) -> Option<Reason>
        ensures { fault_number result ≡ fault_where (due_at self.now.due offset) word }
    {
        fault(line::due_at(self.due, offset), word)
    }

    // The scan over the line's parts and words: it leaves at the first bad offset with number and place.
    pub(crate) fn scan(&self) -> Result<(), Refused>
        ensures { answered result ≡ word_refusal self.now.due self.now.words.now }
    {
        'scan: loop {
            for part in 0..4 {
                if let Err(refused) = self.space_fault(part) {
                    break 'scan Err(refused);
                }
                let from = self.words_start(part);
                let to = part_start(self.due.system, part + 1);
                for offset in from..to {
                    if let Some(reason) = self.fault_at(offset, self.words[offset]) {
                        break 'scan Err(reason.at(offset));
                    }
                }
            }
            break 'scan Ok(());
        }
    }
}
