// A quick pass over a line that only says that nothing is wrong anywhere: no branch leaves its long loops, so that they run on vectors. Which
// fault comes first, where there is one, is the scan's to say.
ghost use Rattle.std.specs.Prelude.{◌≡◌, true, ◌+◌, ◌≤◌, length, get_or, IfSome};
ghost use Rattle.packets.specs.Fault.{word_at};
ghost use Rattle.line.specs.Parts.{CodeWell};
ghost use Rattle.reader.specs.Passes.{ActivePassed, Passed};

use crate::fault::fault;
use crate::whole::Whole;
use line::{ACTIVE_LENGTH, What};
use system::PacketWords;
use words::all_samples;

// Whether four words are the timing code of these F, V, H without a fault. Each is judged as the scan does, so that a line with a repaired code
// stays quick.
fn code_well(words: &[u16], from: usize, fvh: u32) -> bool
    requires { from + 4 ≤ length words.now }
    ensures { result ≡ true → CodeWell fvh (λ k. get_or words.now (from + k) 0) }
{
    fault(What::Ones, words[from]).is_none()
        & fault(What::Zeros, words[from + 1]).is_none()
        & fault(What::Zeros, words[from + 2]).is_none()
        & fault(What::Fourth { fvh }, words[from + 3]).is_none()
}

impl Whole<'_> {
    // Whether its active part is well, and then how many of its words are packets: a space, on a line with V = 1, or samples, of which none is.
    fn active_pass(&self) -> Option<usize>
        ensures { IfSome result (ActivePassed self.now.due (word_at self.now.words.now)) }
    {
        if self.due.v {
            return self.active().ok();
        }
        let start = self.due.system.active_offset();
        all_samples(&self.words[start..start + ACTIVE_LENGTH]).then_some(0)
    }

    // How many words of each space are packets, and only of a line with no fault anywhere.
    pub(crate) fn pass(&self) -> Option<PacketWords>
        ensures { IfSome result (Passed self.now.due self.now.words.now) }
    {
        if !code_well(self.words, 0, self.due.flags(true)) {
            return None;
        }
        let between = self.between().ok()?;
        if !code_well(
            self.words,
            self.due.system.sav_offset(),
            self.due.flags(false),
        ) {
            return None;
        }
        let active = self.active_pass()?;
        Some(PacketWords { between, active })
    }
}
