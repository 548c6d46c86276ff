// A picture of a whole active part, as a row of a programme gives it.
ghost use Rattle.std.specs.Prelude.{◌≡◌, not, eqb, length, IfOk};
ghost use Rattle.refusal.specs.Numbers.{wrong_length};
ghost use Rattle.refusal.specs.Answer.{refuse};
ghost use Rattle.refusal.specs.Reasons.{answered};
ghost use Rattle.line.specs.Samples.{active_length, part_samples};

use crate::picture::Picture;
use crate::ready::lay;
use line::ACTIVE_LENGTH;
use refusal::{Reason, Refused};
use words::all_samples;

// A part of the right length.
#[derive(Clone, Copy)]
pub(crate) struct Part<'a> {
    words: &'a [u16],
    ghost whole: { length words.now ≡ active_length },
}

impl<'a> Part<'a> {
    // Takes a part: 3 at 1 where its length is wrong.
    pub(crate) fn of(words: &'a [u16]) -> Result<Part<'a>, Refused>
        ensures answer { answered result ≡ refuse (not (eqb (length words.now) active_length)) wrong_length 1 }
        ensures lent { IfOk result (λ p. p.words.now ≡ words.now) }
    {
        if words.len() != ACTIVE_LENGTH {
            return Err(Reason::WrongLength.at(1));
        }
        Ok(Part { words })
    }
}

impl Picture for Part<'_> {
    ghost samples = { λ p. part_samples p.words.now };

    fn all_inside(&self) -> bool {
        all_samples(self.words)
    }

    #[tactic(auto, using(line::proofs::Places::part_in_place))]
    fn at(&self, place: usize) -> u16 {
        self.words[place]
    }

    fn put(&self, at: usize, words: &mut [u16]) {
        lay(self.words, at, words);
    }
}
