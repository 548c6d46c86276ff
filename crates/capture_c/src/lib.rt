// What the capture process calls from C, as a static library: include/fiskrogn.h tells it to a C programmer.
#![tactic(auto)]

ghost use Rattle.std.specs.Prelude.{◌≡◌};
ghost use Rattle.capture.specs.Answer.{correct_answer, judge_answer};

// The correction of a fourth word as one number.
#[unsafe(no_mangle)]
pub extern "C" fn fiskrogn_correct(word: u32) -> u32
    ensures { result ≡ correct_answer word }
{
    capture::fiskrogn_correct(word)
}

// Judges the line that a walk awaits, lent as bytes.
#[unsafe(no_mangle)]
pub extern "C" fn fiskrogn_judge(
    system: u32,
    line: u32,
    lines_read: u32,
    repairs: u32,
    fallen: u32,
    tally: u32,
    bytes: &[u8],
) -> u32
    ensures { result ≡ judge_answer (record { system = system; line = line; lines = lines_read; repairs = repairs; fallen = fallen; tally = tally }) bytes.now }
{
    capture::fiskrogn_judge(system, line, lines_read, repairs, fallen, tally, bytes)
}
