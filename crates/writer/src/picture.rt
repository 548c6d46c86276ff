// The samples that a line is written of, wherever a caller holds them: three buffers, or a whole active part.
ghost use Rattle.std.specs.Prelude.{◌≡◌, true, ◌+◌, ◌<◌, ◌≤◌, length};
ghost use Rattle.refusal.specs.Reasons.{answered};
ghost use Rattle.line.specs.Samples.{Samples, active_length, sample_at};
ghost use Rattle.line.specs.Fit.{Inside};
ghost use Rattle.writer.specs.Passes.{Put, active_word};
ghost use Rattle.writer.specs.Write.{sample_refusal};

use line::ACTIVE_LENGTH;
use refusal::{Reason, Refused};
use system::Due;
use words::reserved;

// Samples of the right counts.
pub(crate) trait Picture {
    ghost samples: { Self → Samples };

    // True only where no sample is outside 4 to 1019: a quick pass.
    fn all_inside(&self) -> bool
        ensures { result ≡ true → Inside (samples self.now) };

    // The sample at a place of the active part: CB, Y, CR, Y repeated.
    fn at(&self, place: usize) -> u16
        requires { place < active_length }
        ensures { result ≡ sample_at (samples self.now) place };

    // Writes the samples from an offset on.
    fn put(&self, at: usize, words: &mut [u16])
        requires { at + active_length ≤ length words.old }
        ensures { Put (active_word (samples self.now) at) at (at + active_length) words.old words.new };
}

// What refuses the samples of a line: 12 at the lowest place, on V = 0 lines only. The search is for the place only: all are judged at once before
// it.
pub(crate) fn sample_refusal<P: Picture>(due: Due, picture: &P) -> Result<(), Refused>
    ensures { answered result ≡ sample_refusal due (P.samples picture.now) }
{
    if due.v || picture.all_inside() {
        return Ok(());
    }
    for place in 0..ACTIVE_LENGTH {
        if reserved(picture.at(place)) {
            return Err(Reason::Outside.at(place));
        }
    }
    Ok(())
}
