// The words of a line that has all of them, and what is due in it: how many are packets, or the first fault; and what is told of its codes.
ghost use Rattle.std.specs.Prelude.{◌≡◌, length, IfOk};
ghost use Rattle.refusal.specs.Reasons.{answered};
ghost use Rattle.packets.specs.Fault.{word_at, space_told};
ghost use Rattle.timing.specs.Code.{correction_of};
ghost use Rattle.timing.specs.Report.{code_report_of};
ghost use Rattle.system.specs.Figures.{line_length};
ghost use Rattle.line.specs.Fault.{word_refusal, between_space, active_space, counts_of};
ghost use Rattle.reader.specs.Judge.{report_of};

use line::BETWEEN_OFFSET;
use packets::judge_space;
use refusal::Refused;
use system::{Due, PacketWords};
use timing::{CodeReport, Report};

#[derive(Clone, Copy)]
pub(crate) struct Whole<'a> {
    pub due: Due,
    pub words: &'a [u16],
    ghost whole: { length words.now ≡ line_length due.system },
}

// What is told of a code with this fourth word, where these F, V, H are due.
fn code_told(word: u16, fvh: u32) -> CodeReport
    ensures { result ≡ code_report_of (correction_of word) }
{
    timing::code_report(timing::correct_expecting(word, fvh))
}

impl Whole<'_> {
    // What is told of its two codes.
    pub(crate) fn report(&self) -> Report
        ensures { result ≡ report_of self.now.due self.now.words.now }
    {
        let fourth = self.due.system.sav_offset() + 3;
        Report {
            eav: code_told(self.words[3], self.due.flags(true)),
            sav: code_told(self.words[fourth], self.due.flags(false)),
        }
    }

    // How many words of the space between EAV and SAV are packets, or its first fault.
    pub(crate) fn between(&self) -> Result<usize, Refused>
        ensures { space_told result ≡ between_space self.now.due (word_at self.now.words.now) }
    {
        judge_space(
            self.words,
            BETWEEN_OFFSET,
            self.due.system.sav_offset(),
            self.due.fill,
        )
    }

    // The same of the active part, where V is 1.
    pub(crate) fn active(&self) -> Result<usize, Refused>
        ensures { space_told result ≡ active_space self.now.due (word_at self.now.words.now) }
    {
        judge_space(
            self.words,
            self.due.system.active_offset(),
            self.words.len(),
            self.due.fill,
        )
    }

    // How many words of each space are packets: none of a space with a fault, or that is none.
    fn counts(&self) -> PacketWords
        ensures { result ≡ counts_of self.now.due self.now.words.now }
    {
        PacketWords {
            between: self.between().unwrap_or(0),
            active: if self.due.v {
                self.active().unwrap_or(0)
            } else {
                0
            },
        }
    }

    // How many words of each space are packets, or the lowest offset with any fault: the quick pass tells it where all is well, and the scan
    // otherwise.
    pub(crate) fn packets(&self) -> Result<PacketWords, Refused>
        ensures answer { answered result ≡ word_refusal self.now.due self.now.words.now }
        ensures packets { IfOk result (λ packets. packets ≡ counts_of self.now.due self.now.words.now) }
    {
        if let Some(packets) = self.pass() {
            return Ok(packets);
        }
        self.scan()?;
        Ok(self.counts())
    }
}
