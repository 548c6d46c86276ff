// What the capture process calls from C, which lends and is answered numbers: include/fiskrogn.h tells it to a C programmer.
#![tactic(auto)]

ghost use Rattle.std.specs.Prelude.{◌≡◌};
ghost use Rattle.capture.specs.Answer.{correct_answer, judge_answer};

use refusal::Reason;
use system::Walk;
use timing::Correction;
use words::MOST_WORD;

// The correction of a fourth word as one number: the corrected word and 4,096 times the repaired bit, or 65,536 times the refusal's
// number. Any 32-bit number may come: nothing is cut before it is judged.
pub fn fiskrogn_correct(word: u32) -> u32
    ensures { result ≡ correct_answer word }
{
    if u32::from(MOST_WORD) < word {
        return 65536 * Reason::Over.number();
    }
    match timing::correct(word as u16) {
        Correction::Clean { fvh } => u32::from(timing::fourth(fvh)),
        Correction::Repaired { fvh, bit } => u32::from(timing::fourth(fvh)) + 4096 * bit,
        Correction::Refused { number } => 65536 * number,
    }
}

// Judges the line that a walk awaits, lent as bytes, two per word, low byte first: 65,536 times a refusal's number plus its place, or the
// line's repairs. The walk is given by all that it holds, its record of V among it, 0 for no and anything else for yes, and its tally, and none
// is handed back.
pub fn fiskrogn_judge(
    system: u32,
    line: u32,
    lines_read: u32,
    repairs: u32,
    fallen: u32,
    tally: u32,
    bytes: &[u8],
) -> u32
    ensures { result ≡ judge_answer (record { system = system; line = line; lines = lines_read; repairs = repairs; fallen = fallen; tally = tally }) bytes.now }
{
    let walk = Walk::of(system, line, lines_read, repairs, fallen, tally);
    let judgement = bytewise::judge(walk, bytes);
    if judgement.number != 0 {
        return 65536 * judgement.number + judgement.place as u32;
    }
    system::repairs(judgement.report)
}
