// What a line consists of: what is due at each of its offsets. Reader and writer share it.
#![tactic(auto)]

ghost use Rattle.std.specs.Prelude.{◌≡◌};
ghost use Rattle.line.specs.Offsets.{code_at, fill_at, due_at};
ghost use Rattle.refusal.specs.Reasons.{answered};
ghost use Rattle.line.specs.Lengths.{buffer_refusal};

use refusal::{Reason, Refused};
use system::Due;
use words::FillWords;

// The samples of an active part: CB, Y, CR, Y repeated.
pub const ACTIVE_LENGTH: usize = 1440;

// Where the space between EAV and SAV starts: after the four words of EAV.
pub const BETWEEN_OFFSET: usize = 4;

// The first word of a timing code is 1023, and 1020 to 1023 count as it; the second and third are 0, and 0 to 3 count as them.
pub const LEAST_ONES: u16 = 1020;

pub const MOST_ZEROS: u16 = 3;

// What is due at one offset: a word of a timing code, fill, or a sample.
#[derive(Clone, Copy, Debug, PartialEq, Eq)]
pub enum What {
    Ones,
    Zeros,
    Fourth { fvh: u32 },
    Fill { word: u16 },
    Sample,
}

// The k-th word of the timing code of F, V, H.
fn code_at(fvh: u32, k: usize) -> What
    ensures { result ≡ code_at fvh k }
{
    match k {
        0 => What::Ones,
        1 | 2 => What::Zeros,
        _ => What::Fourth { fvh },
    }
}

// Fill, by its offset.
fn fill_at(fill: FillWords, offset: usize) -> What
    ensures { result ≡ fill_at fill offset }
{
    What::Fill {
        word: fill.at(offset),
    }
}

// What is due at an offset of a line.
#[tactic(auto, unfolding(crate::specs::Offsets::due_at))]
pub fn due_at(due: Due, offset: usize) -> What
    ensures { result ≡ due_at due offset }
{
    let sav = due.system.sav_offset();
    if offset < 4 {
        return code_at(due.flags(true), offset);
    }
    if offset < sav {
        return fill_at(due.fill, offset);
    }
    if offset < sav + 4 {
        return code_at(due.flags(false), offset - sav);
    }
    if due.v {
        return fill_at(due.fill, offset);
    }
    What::Sample
}

// What is wrong with the lengths of the sample buffers: 3 at the lowest place.
#[tactic(auto, unfolding(crate::specs::Lengths::buffer_refusal, refusal::specs::Answer::or_else))]
pub fn buffer_refusal(y: usize, cb: usize, cr: usize) -> Result<(), Refused>
    ensures { answered result ≡ buffer_refusal y cb cr }
{
    if y != 720 {
        return Err(Reason::WrongLength.at(1));
    }
    if cb != 360 {
        return Err(Reason::WrongLength.at(2));
    }
    if cr != 360 {
        return Err(Reason::WrongLength.at(3));
    }
    Ok(())
}
