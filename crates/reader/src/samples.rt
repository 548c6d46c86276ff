// Taking the samples of a line that judges well.
ghost use Rattle.std.specs.Prelude.{◌≡◌, ◌+◌, ◌≤◌, length};
ghost use Rattle.refusal.specs.Reasons.{answered};
ghost use Rattle.line.specs.Samples.{active_length, y_length, c_length, ys_from, cbs_from, crs_from};
ghost use Rattle.reader.specs.Take.{take_refusal, taken_of};

use crate::accepted;
use line::{ACTIVE_LENGTH, buffer_refusal};
use refusal::Refused;
use system::Walk;

// The groups CB, Y, CR, Y of an active part.
const GROUPS: usize = ACTIVE_LENGTH / 4;

// Copies the samples of the active part that starts at an offset, group by group.
fn copy_samples(words: &[u16], active: usize, y: &mut [u16], cb: &mut [u16], cr: &mut [u16])
    requires { (active + active_length ≤ length words.now) × (length y.old ≡ y_length) × (length cb.old ≡ c_length) × (length cr.old ≡ c_length) }
    ensures ys { y.new ≡ ys_from active words.now }
    ensures cbs { cb.new ≡ cbs_from active words.now }
    ensures crs { cr.new ≡ crs_from active words.now }
{
    for k in 0..GROUPS {
        let group = active + 4 * k;
        cb[k] = words[group];
        y[2 * k] = words[group + 1];
        cr[k] = words[group + 2];
        y[2 * k + 1] = words[group + 3];
    }
}

// Takes the samples of the line that a walk awaits, where it judges well, the buffers have their lengths and its V is 0. Refused as judging
// refuses it, then with 3 for a buffer's length; the walk then stands, though judging may have accepted.
pub fn take(
    walk: Walk,
    words: &[u16],
    y: &mut [u16],
    cb: &mut [u16],
    cr: &mut [u16],
) -> Result<(), Refused>
    ensures answer { answered result ≡ take_refusal walk words.now (record { y = y.old; cb = cb.old; cr = cr.old }) }
    ensures ys { y.new ≡ (taken_of walk words.now (record { y = y.old; cb = cb.old; cr = cr.old })).y }
    ensures cbs { cb.new ≡ (taken_of walk words.now (record { y = y.old; cb = cb.old; cr = cr.old })).cb }
    ensures crs { cr.new ≡ (taken_of walk words.now (record { y = y.old; cb = cb.old; cr = cr.old })).cr }
{
    accepted(walk, words)?;
    buffer_refusal(y.len(), cb.len(), cr.len())?;
    let due = walk.due(words[3]);
    if !due.v {
        copy_samples(words, due.system.active_offset(), y, cb, cr);
    }
    Ok(())
}
