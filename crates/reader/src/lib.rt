// Reading lines at a walk: judging a line, taking its samples, and lending its active part and its packets.
#![tactic(auto)]

mod fault;
mod pass;
mod samples;
mod scan;
mod whole;

ghost use Rattle.std.specs.Prelude.{◌≡◌, IfOk};
ghost use Rattle.refusal.specs.Reasons.{answered};
ghost use Rattle.reader.specs.Judge.{judge_refusal, judged_of, active_of, between_packets_of, active_packets_of};

use crate::whole::Whole;
use line::{ACTIVE_LENGTH, BETWEEN_OFFSET};
use refusal::{Refusal, Refused};
pub use samples::take;
use system::{Judgement, Walk, system_of};

// The judgement of the line that a walk awaits, or what refuses it.
fn accepted(walk: Walk, words: &[u16]) -> Result<Judgement, Refused>
    ensures answer { answered result ≡ judge_refusal walk words.now }
    ensures judgement { IfOk result (λ judgement. judgement ≡ judged_of walk words.now) }
{
    walk.standing(words.len(), walk.line_words())?;
    let due = walk.due(words[3]);
    let line = Whole { due, words };
    let packets = line.packets()?;
    Ok(Judgement::accepted(walk, due, line.report(), packets))
}

// Judges the line that a walk awaits: 1, 2, 4, 3 at place 0, then the lowest offset with a fault; and tells how many words of each space are
// packets. A refusal leaves the walk standing.
pub fn judge(walk: Walk, words: &[u16]) -> Judgement
    ensures { result ≡ judged_of walk words.now }
{
    match accepted(walk, words) {
        Ok(judgement) => judgement,
        Err(refused) => Judgement::refused(walk, Refusal::from(refused)),
    }
}

// The active part of the line that a walk awaits: a part of the caller's own slice, empty where judging refuses the line.
pub fn active(walk: Walk, words: &[u16]) -> &[u16]
    ensures { result.now ≡ active_of walk words.now }
{
    let Ok(_) = accepted(walk, words) else {
        return &words[..0];
    };
    let start = system_of(walk.system).active_offset();
    &words[start..start + ACTIVE_LENGTH]
}

// The packets in the space between EAV and SAV of the line that a walk awaits: the part of the caller's own slice in which they stand, empty
// where judging refuses the line.
pub fn between_packets(walk: Walk, words: &[u16]) -> &[u16]
    ensures { result.now ≡ between_packets_of walk words.now }
{
    let Ok(judgement) = accepted(walk, words) else {
        return &words[..0];
    };
    &words[BETWEEN_OFFSET..BETWEEN_OFFSET + judgement.packets.between]
}

// The packets in its active part, where V is 1.
pub fn active_packets(walk: Walk, words: &[u16]) -> &[u16]
    ensures { result.now ≡ active_packets_of walk words.now }
{
    let Ok(judgement) = accepted(walk, words) else {
        return &words[..0];
    };
    let start = system_of(walk.system).active_offset();
    &words[start..start + judgement.packets.active]
}
