// Writing a line by what is due in it: of samples, or of a whole active part, and of ready packet words.
#![tactic(auto)]

mod part;
mod picture;
mod planes;
mod ready;

ghost use Rattle.std.specs.Prelude.{◌≡◌, [], ◌∷◌, ◌+◌, ◌%◌, ◌≤◌, length};
ghost use Rattle.refusal.specs.Answer.{first_of, written_by};
ghost use Rattle.refusal.specs.Reasons.{answered};
ghost use Rattle.system.specs.Figures.{line_length};
ghost use Rattle.line.specs.Lengths.{length_refusal};
ghost use Rattle.line.specs.Samples.{Samples, bare_of, line_of};
ghost use Rattle.writer.specs.Passes.{Put, Blanked, code_word, fill_word, packets_in};
ghost use Rattle.writer.specs.Write.{packets_refusal, sample_refusal, due_refusal, part_refusal, part_content, write_refusal, line_after};

use crate::part::Part;
use crate::picture::{Picture, sample_refusal};
use crate::planes::Planes;
use crate::ready::Ready;
use refusal::{Reason, Refused};
use system::{Due, system_of, written_refusal};
use timing::fourth;
use words::MOST_WORD;

// Writes the line with this number, where V of the first field falls at this line: 1, 2, 3, what is wrong with the ready packet words of the space between and of the active part, and then 12
// at the lowest place of the active part, on V = 0 lines only. On V = 1 lines the samples are measured but not looked at. Behind the packets
// fill is written. A refusal leaves the line as it was.
#[tactic(auto, using(refusal::proofs::Results::err_first, refusal::proofs::Results::ok_first, refusal::proofs::Results::err_stays, refusal::proofs::Results::ok_written), unfolding(crate::specs::Write::write_refusal, crate::specs::Write::line_after))]
pub fn write(
    system: u32,
    line: u32,
    fall: u32,
    y: &[u16],
    cb: &[u16],
    cr: &[u16],
    between: &[u16],
    active: &[u16],
    words: &mut [u16],
) -> Result<(), Refused>
    ensures answer { answered result ≡ write_refusal system line fall (record { samples = record { y = y.now; cb = cb.now; cr = cr.now }; packets = record { between = between.now; active = active.now } }) (length words.old) }
    ensures words { words.new ≡ line_after system line fall (record { samples = record { y = y.now; cb = cb.now; cr = cr.now }; packets = record { between = between.now; active = active.now } }) words.old }
{
    written_refusal(system, line, fall)?;
    let due = Due::of(system_of(system), line, fall);
    write_line(due, y, cb, cr, between, active, words)
}

// Writes the line in which this is due, by whatever number it has: 3, the ready packet words, then 12.
#[tactic(auto, using(refusal::proofs::Results::err_first, refusal::proofs::Results::ok_first, refusal::proofs::Results::err_stays, refusal::proofs::Results::ok_written), unfolding(crate::specs::Write::due_refusal))]
pub fn write_line(
    due: Due,
    y: &[u16],
    cb: &[u16],
    cr: &[u16],
    between: &[u16],
    active: &[u16],
    words: &mut [u16],
) -> Result<(), Refused>
    ensures answer { answered result ≡ due_refusal due (record { samples = record { y = y.now; cb = cb.now; cr = cr.now }; packets = record { between = between.now; active = active.now } }) (length words.old) }
    ensures words { words.new ≡ written_by (answered result) (line_of due (record { samples = record { y = y.now; cb = cb.now; cr = cr.now }; packets = record { between = between.now; active = active.now } })) words.old }
{
    length_refusal(due, words.len())?;
    let planes = Planes::of(y, cb, cr)?;
    put_content(due, &planes, &Ready { between, active }, words)
}

// Writes the line in which this is due, of the words of its active part: 3 at 0 for the line and at 1 for the part, the ready packet words, then
// 12 at the lowest place, where V is 0. Where V is 1 the part is measured but not looked at. A refusal leaves the line as it was.
#[tactic(auto, using(refusal::proofs::Results::err_first, refusal::proofs::Results::ok_first, refusal::proofs::Results::err_stays, refusal::proofs::Results::ok_written), unfolding(crate::specs::Write::part_refusal))]
pub fn write_part(
    due: Due,
    part: &[u16],
    between: &[u16],
    active: &[u16],
    words: &mut [u16],
) -> Result<(), Refused>
    ensures answer { answered result ≡ part_refusal due part.now (record { between = between.now; active = active.now }) (length words.old) }
    ensures words { words.new ≡ written_by (answered result) (line_of due (part_content part.now (record { between = between.now; active = active.now }))) words.old }
{
    length_refusal(due, words.len())?;
    let part = Part::of(part)?;
    put_content(due, &part, &Ready { between, active }, words)
}

// What is wrong with the length of the line: 3 at 0.
fn length_refusal(due: Due, room: usize) -> Result<(), Refused>
    ensures { answered result ≡ length_refusal due.system room }
{
    if room != due.system.line_length() {
        return Err(Reason::WrongLength.at(0));
    }
    Ok(())
}

// Writes a line of a picture and ready packet words: what refuses those, then 12, and all that before the first store.
#[tactic(auto, using(refusal::proofs::Results::err_first, refusal::proofs::Results::ok_first, refusal::proofs::Results::err_stays, refusal::proofs::Results::ok_written))]
fn put_content<P: Picture>(
    due: Due,
    picture: &P,
    ready: &Ready,
    words: &mut [u16],
) -> Result<(), Refused>
    requires { length words.old ≡ line_length due.system }
    ensures answer { answered result ≡ first_of (packets_refusal due (packets_in ready.now) ∷ sample_refusal due (P.samples picture.now) ∷ []) }
    ensures words { words.new ≡ written_by (answered result) (line_of due (record { samples = P.samples picture.now; packets = packets_in ready.now })) words.old }
{
    ready.refusal(due)?;
    sample_refusal(due, picture)?;
    put_line(due, picture, words);
    ready.lay(due, words);
    Ok(())
}

// Writes the line without packets part by part: EAV, fill, SAV, and the active part, which is fill where V is 1.
fn put_line<P: Picture>(due: Due, picture: &P, words: &mut [u16])
    requires { length words.old ≡ line_length due.system }
    ensures { words.new ≡ bare_of due (P.samples picture.now) }
{
    put_blanking(due, words);
    let active = due.system.active_offset();
    if due.v {
        put_fill(due, active, words.len(), words);
    } else {
        picture.put(active, words);
    }
}

// Writes all but the active part: EAV, fill, SAV.
fn put_blanking(due: Due, words: &mut [u16])
    requires { length words.old ≡ line_length due.system }
    ensures { (p : Samples) → Blanked due p words.new }
{
    let sav = due.system.sav_offset();
    put_code(due.flags(true), 0, words);
    put_fill(due, 4, sav, words);
    put_code(due.flags(false), sav, words);
}

// Writes the timing code of F, V, H from an offset on, with the low bits as shown.
fn put_code(fvh: u32, at: usize, words: &mut [u16])
    requires { at + 4 ≤ length words.old }
    ensures { Put (code_word fvh at) at (at + 4) words.old words.new }
{
    words[at] = MOST_WORD;
    words[at + 1] = 0;
    words[at + 2] = 0;
    words[at + 3] = fourth(fvh);
}

// Writes fill from one even offset up to another, by pairs: one word after another by FillWords::at takes nine times as long.
fn put_fill(due: Due, from: usize, to: usize, words: &mut [u16])
    requires { (from % 2 ≡ 0) × (to % 2 ≡ 0) × (from ≤ to) × (to ≤ length words.old) }
    ensures { Put (fill_word due) from to words.old words.new }
{
    for pair in 0..(to - from) / 2 {
        let offset = from + 2 * pair;
        words[offset] = due.fill.even;
        words[offset + 1] = due.fill.odd;
    }
}
