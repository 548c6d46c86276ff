// The fast pass over a line's bytes: it may say that nothing is wrong, and never what is wrong.
ghost use Rattle.std.specs.Prelude.{◌≡◌, ◌+◌, ◌-◌, ◌*◌, ◌/◌, ◌≤◌, true, length, IfSome};
ghost use Rattle.timing.specs.Code.{correction_of};
ghost use Rattle.timing.specs.Report.{number_where, code_report_of};
ghost use Rattle.system.specs.Figures.{line_length, sav_offset, active_offset};
ghost use Rattle.packets.specs.Fault.{space_told};
ghost use Rattle.line.specs.Fault.{between_space};
ghost use Rattle.words.specs.Words.{least_sample, most_sample};
ghost use Rattle.line.specs.Samples.{active_length};
ghost use Rattle.words.specs.Bytes.{word_of_bytes};
ghost use Rattle.line.specs.Parts.{CodeWell};
ghost use Rattle.words.specs.Passes.{Sampled, Filled};
ghost use Rattle.bytewise.specs.Passes.{LineBytes, SampleKey, Corrected, line_word, PlainActive, LineWell};

use line::{ACTIVE_LENGTH, BETWEEN_OFFSET, LEAST_ONES, MOST_ZEROS};
use packets::judge_space;
use refusal::Refused;
use system::{Due, Figures, PacketWords, System, System525, System625};
use timing::{Correction, Report};
use words::{FillWords, MOST_WORD, pair_of, word_of};

// The word of the two bytes at an offset of the bytes. The crate words has the same for itself: no public call asks anything of its caller.
pub(crate) fn word_at(bytes: &[u8], at: usize) -> u16
    requires { at + 2 ≤ length bytes.now }
    ensures { result ≡ word_of_bytes bytes.now at }
{
    word_of(bytes[at], bytes[at + 1])
}

// A number for each word, by which the samples, 4 to 1019, are the 1016 lowest signed numbers in their order. The processor has the higher of
// two for eight of them at once.
fn key(word: u16) -> i16
    ensures { SampleKey result → (least_sample ≤ word) × (word ≤ most_sample) }
{
    word.wrapping_add(32764).cast_signed()
}

// Whether a key is one of the samples'.
fn is_sample_key(key: i16) -> bool
    ensures { result ≡ true → SampleKey key }
{
    key < -31752
}

// True only where the words of an active part, from a byte offset, are samples: the highest key tells. No branch leaves the loop, so
// that it runs on vectors.
fn all_samples(bytes: &[u8], from: usize) -> bool
    requires { from + 2 * active_length ≤ length bytes.now }
    ensures { result ≡ true → Sampled (λ k. word_of_bytes bytes.now (from + 2 * k)) active_length }
{
    let mut highest: i16 = -32768;
    for k in 0..ACTIVE_LENGTH {
        highest = highest.max(key(word_at(bytes, from + 2 * k)));
    }
    is_sample_key(highest)
}

// True only where so many pairs of words, from a byte offset, are these two. The pass over words has its own, which walks words: what both
// share stands in `words`. The loop counts pairs, so that the compiler knows how many they are.
fn all_fill(bytes: &[u8], from: usize, pairs: usize, fill: FillWords) -> bool
    requires { from + 4 * pairs ≤ length bytes.now }
    ensures { result ≡ true → Filled fill.even fill.odd (λ k. word_of_bytes bytes.now (from + 2 * k)) pairs }
{
    let due = pair_of(fill.even, fill.odd);
    let mut good = true;
    for k in 0..pairs {
        let at = from + 4 * k;
        good = good & (pair_of(word_at(bytes, at), word_at(bytes, at + 2)) == due);
    }
    good
}

// True only where correction finds the F, V, H that are due.
fn finds(correction: Correction, due: u32) -> bool
    ensures { result ≡ true → number_where due correction ≡ 0 }
{
    match correction {
        Correction::Clean { fvh } | Correction::Repaired { fvh, .. } => fvh == due,
        Correction::Refused { .. } => false,
    }
}

// True only where the code of F, V, H stands at a byte offset: low bits at will, and the fourth word as correction finds it, which was asked
// before, where the pass over words asks here.
fn code_well(bytes: &[u8], from: usize, correction: Correction, fvh: u32) -> bool
    requires { (from + 8 ≤ length bytes.now) × (correction ≡ correction_of (word_of_bytes bytes.now (from + 6))) }
    ensures { result ≡ true → CodeWell fvh (λ k. word_of_bytes bytes.now (from + 2 * k)) }
{
    let first = word_at(bytes, from);
    (LEAST_ONES <= first)
        & (first <= MOST_WORD)
        & (word_at(bytes, from + 2) <= MOST_ZEROS)
        & (word_at(bytes, from + 4) <= MOST_ZEROS)
        & finds(correction, fvh)
}

// What correction finds in the fourth words of a line's EAV and SAV.
#[derive(Clone, Copy)]
pub(crate) struct Codes {
    eav: Correction,
    sav: Correction,
}

// The bytes of a line, with what is due in it and what correction finds in its fourth words.
#[derive(Clone, Copy)]
pub(crate) struct Line<'a> {
    pub due: Due,
    bytes: &'a [u8],
    codes: Codes,
    ghost whole: { LineBytes due bytes.now },
    ghost corrected: { Corrected due bytes.now codes },
}

impl<'a> Line<'a> {
    // That of bytes in which this is due.
    pub(crate) fn of(due: Due, bytes: &'a [u8]) -> Line<'a>
        requires { LineBytes due bytes.now }
        ensures due { result.due ≡ due }
        ensures bytes { result.bytes.now ≡ bytes.now }
    {
        let sav = 2 * due.system.sav_offset();
        let eav = timing::correct_expecting(word_at(bytes, 6), due.flags(true));
        let sav = timing::correct_expecting(word_at(bytes, sav + 6), due.flags(false));
        Line {
            due,
            bytes,
            codes: Codes { eav, sav },
        }
    }

    // What is told of its codes.
    pub(crate) fn report(self) -> Report
        ensures { result ≡ record { eav = code_report_of self.entry.codes.eav; sav = code_report_of self.entry.codes.sav } }
    {
        Report {
            eav: timing::code_report(self.codes.eav),
            sav: timing::code_report(self.codes.sav),
        }
    }

    // True only where the space between EAV and SAV is fill. Each system has its own call, so that the compiler knows the length.
    fn space_filled(self) -> bool
        ensures { result ≡ true → space_told (Ok 0) ≡ between_space self.entry.due (line_word self.entry.bytes.now) }
    {
        let fill = self.due.fill;
        match self.due.system {
            System::Lines525 => all_fill(self.bytes, 8, (System525::SAV_OFFSET - 4) / 2, fill),
            System::Lines625 => all_fill(self.bytes, 8, (System625::SAV_OFFSET - 4) / 2, fill),
        }
    }

    // Judges the space between by its words, copied with those of EAV into room that holds at least as many.
    fn space_in(self, room: &mut [u16]) -> Result<usize, Refused>
        requires { sav_offset self.due.system ≤ length room.old }
        ensures { space_told result ≡ between_space self.entry.due (line_word self.entry.bytes.now) }
    {
        let sav = self.due.system.sav_offset();
        let end = 2 * sav;
        words::to_words(&self.bytes[0..end], &mut room[0..sav]).unwrap();
        judge_space(&room[0..sav], BETWEEN_OFFSET, sav, self.due.fill)
    }

    // Judges the space between by its words: slow, and apart from the quick pass, which needs no room for them.
    #[inline(never)]
    fn space(self) -> Result<usize, Refused>
        ensures { space_told result ≡ between_space self.entry.due (line_word self.entry.bytes.now) }
    {
        let mut room = [0u16; System625::SAV_OFFSET];
        self.space_in(&mut room)
    }

    // How many words of the space between are packets: quickly where it is all fill, and otherwise by its words. None where it has a fault.
    fn between(self) -> Option<usize>
        ensures { IfSome result (λ packets. space_told (Ok packets) ≡ between_space self.entry.due (line_word self.entry.bytes.now)) }
    {
        if self.space_filled() {
            return Some(0);
        }
        self.space().ok()
    }

    // True only where the active part stands at a byte offset: fill alone where V is 1, and samples where it is 0.
    fn active_well(self, from: usize) -> bool
        requires { from ≡ 2 * active_offset self.due.system }
        ensures { result ≡ true → PlainActive self.entry.due (line_word self.entry.bytes.now) }
    {
        if self.due.v {
            all_fill(self.bytes, from, ACTIVE_LENGTH / 2, self.due.fill)
        } else {
            all_samples(self.bytes, from)
        }
    }

    // Some only of a line with no fault anywhere: how many of its words are packets. An active part with packets is left to the judge of words.
    pub(crate) fn pass(self) -> Option<PacketWords>
        ensures { IfSome result (LineWell self.entry.due self.entry.bytes.now) }
    {
        let sav = 2 * self.due.system.sav_offset();
        if !code_well(self.bytes, 0, self.codes.eav, self.due.flags(true)) {
            return None;
        }
        let between = self.between()?;
        if !code_well(self.bytes, sav, self.codes.sav, self.due.flags(false)) {
            return None;
        }
        if !self.active_well(sav + 8) {
            return None;
        }
        Some(PacketWords { between, active: 0 })
    }
}
