// A picture of three buffers: Y, CB and CR.
ghost use Rattle.std.specs.Prelude.{◌≡◌, length, IfOk};
ghost use Rattle.refusal.specs.Reasons.{answered};
ghost use Rattle.line.specs.Lengths.{buffer_refusal};
ghost use Rattle.line.specs.Fit.{Measured};

use crate::picture::Picture;
use line::buffer_refusal;
use refusal::Refused;
use words::{LEAST_SAMPLE, MOST_SAMPLE};

// Buffers of the right lengths.
#[derive(Clone, Copy)]
pub(crate) struct Planes<'a> {
    y: &'a [u16],
    cb: &'a [u16],
    cr: &'a [u16],
    ghost measured: { Measured (record { y = y.now; cb = cb.now; cr = cr.now }) },
}

impl<'a> Planes<'a> {
    // Takes the buffers: 3 at the lowest place whose length is wrong.
    pub(crate) fn of(y: &'a [u16], cb: &'a [u16], cr: &'a [u16]) -> Result<Planes<'a>, Refused>
        ensures answer { answered result ≡ buffer_refusal (length y.now) (length cb.now) (length cr.now) }
        ensures lent { IfOk result (λ p. (p.y.now ≡ y.now) × (p.cb.now ≡ cb.now) × (p.cr.now ≡ cr.now)) }
    {
        buffer_refusal(y.len(), cb.len(), cr.len())?;
        Ok(Planes { y, cb, cr })
    }
}

impl Picture for Planes<'_> {
    ghost samples = { λ p. record { y = p.y.now; cb = p.cb.now; cr = p.cr.now } };

    // One pass over both halves of Y and over CB and CR, with no way out, so that it runs on vectors. By index, since four slices are walked in
    // step; a pass over each buffer takes half as long again.
    fn all_inside(&self) -> bool {
        let half = self.cb.len();
        let mut lowest = LEAST_SAMPLE;
        let mut highest = MOST_SAMPLE;
        for k in 0..half {
            let left = self.y[k];
            let right = self.y[half + k];
            let blue = self.cb[k];
            let red = self.cr[k];
            lowest = lowest.min(left.min(right).min(blue.min(red)));
            highest = highest.max(left.max(right).max(blue.max(red)));
        }
        (lowest == LEAST_SAMPLE) & (highest == MOST_SAMPLE)
    }

    #[tactic(auto, unfolding(line::specs::Samples::sample_at))]
    fn at(&self, place: usize) -> u16 {
        if place % 2 == 1 {
            self.y[place / 2]
        } else if place % 4 == 0 {
            self.cb[place / 4]
        } else {
            self.cr[place / 4]
        }
    }

    // By index, since a proof knows no word that is written through chunks_exact_mut.
    fn put(&self, at: usize, words: &mut [u16]) {
        for group in 0..self.cb.len() {
            let offset = at + 4 * group;
            words[offset] = self.cb[group];
            words[offset + 1] = self.y[2 * group];
            words[offset + 2] = self.cr[group];
            words[offset + 3] = self.y[2 * group + 1];
        }
    }
}
