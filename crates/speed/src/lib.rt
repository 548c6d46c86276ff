// The calls of reader, writer, serial and index for C, so that a benchmark can time them beside C's own. Each answers the call's number.
#![tactic(auto)]

ghost use Rattle.std.specs.Prelude.{◌≡◌, length};
ghost use Rattle.system.specs.Walk.{fresh_walk};
ghost use Rattle.reader.specs.Judge.{judged_of};
ghost use Rattle.reader.specs.Take.{take_refusal, taken_of, in_turn};
ghost use Rattle.writer.specs.Write.{write_refusal, line_after};
ghost use Rattle.index.specs.Parts.{answer_of};
ghost use Rattle.serial.specs.Calls.{told, code_answer, code_output, decode_answer, decode_output};

use refusal::Refusal;
use serial::{Returned, State};
use system::{System525, Walk};

#[unsafe(no_mangle)]
pub extern "C" fn speed_judge(system: u32, line: u32, words: &[u16]) -> u32
    ensures { result ≡ (judged_of (fresh_walk system line) words.now).number }
{
    let walk = Walk::of(system, line, 0, 0, 0, 0);
    reader::judge(walk, words).number
}

#[unsafe(no_mangle)]
pub extern "C" fn speed_take(
    system: u32,
    line: u32,
    words: &[u16],
    y: &mut [u16],
    cb: &mut [u16],
    cr: &mut [u16],
) -> u32
    ensures answer { result ≡ (take_refusal (fresh_walk system line) words.now (record { y = y.old; cb = cb.old; cr = cr.old })).number }
    ensures ys { y.new ≡ (taken_of (fresh_walk system line) words.now (record { y = y.old; cb = cb.old; cr = cr.old })).y }
    ensures cbs { cb.new ≡ (taken_of (fresh_walk system line) words.now (record { y = y.old; cb = cb.old; cr = cr.old })).cb }
    ensures crs { cr.new ≡ (taken_of (fresh_walk system line) words.now (record { y = y.old; cb = cb.old; cr = cr.old })).cr }
{
    let walk = Walk::of(system, line, 0, 0, 0, 0);
    Refusal::of(reader::take(walk, words, y, cb, cr)).number
}

// Judging and taking in turn, as one who reads lines has it.
#[unsafe(no_mangle)]
pub extern "C" fn speed_in_turn(
    system: u32,
    line: u32,
    words: &[u16],
    y: &mut [u16],
    cb: &mut [u16],
    cr: &mut [u16],
) -> u32
    ensures answer { result ≡ (in_turn (fresh_walk system line) words.now (record { y = y.old; cb = cb.old; cr = cr.old })).judgement.number }
    ensures ys { y.new ≡ (in_turn (fresh_walk system line) words.now (record { y = y.old; cb = cb.old; cr = cr.old })).buffers.y }
    ensures cbs { cb.new ≡ (in_turn (fresh_walk system line) words.now (record { y = y.old; cb = cb.old; cr = cr.old })).buffers.cb }
    ensures crs { cr.new ≡ (in_turn (fresh_walk system line) words.now (record { y = y.old; cb = cb.old; cr = cr.old })).buffers.cr }
{
    let walk = Walk::of(system, line, 0, 0, 0, 0);
    let judgement = reader::judge(walk, words);
    if judgement.number != 0 {
        return judgement.number;
    }
    Refusal::of(reader::take(walk, words, y, cb, cr)).number
}

#[unsafe(no_mangle)]
pub extern "C" fn speed_write(
    system: u32,
    line: u32,
    y: &[u16],
    cb: &[u16],
    cr: &[u16],
    between: &[u16],
    active: &[u16],
    words: &mut [u16],
) -> u32
    ensures answer { result ≡ (write_refusal system line 20 (record { samples = record { y = y.now; cb = cb.now; cr = cr.now }; packets = record { between = between.now; active = active.now } }) (length words.old)).number }
    ensures words { words.new ≡ line_after system line 20 (record { samples = record { y = y.now; cb = cb.now; cr = cr.now }; packets = record { between = between.now; active = active.now } }) words.old }
{
    let fall = System525::LAST_FALL;
    Refusal::of(writer::write(system, line, fall, y, cb, cr, between, active, words)).number
}

// The number of a coder's or decoder's answer.
fn number_of(coded: Result<State, Returned>) -> u32
    ensures { result ≡ (told coded).number }
{
    match coded {
        Ok(_) => 0,
        Err(returned) => returned.refused.reason.number(),
    }
}

#[unsafe(no_mangle)]
pub extern "C" fn speed_code(words: &[u16], out: &mut [u16]) -> u32
    ensures answer { result ≡ (code_answer (record { scrambled = 0; last = 0 }) words.now out.old).number }
    ensures output { out.new ≡ code_output (record { scrambled = 0; last = 0 }) words.now out.old }
{
    number_of(serial::code(State::fresh(), words, out))
}

#[unsafe(no_mangle)]
pub extern "C" fn speed_decode(words: &[u16], out: &mut [u16]) -> u32
    ensures answer { result ≡ (decode_answer (record { scrambled = 0; last = 0 }) words.now out.old).number }
    ensures output { out.new ≡ decode_output (record { scrambled = 0; last = 0 }) words.now out.old }
{
    number_of(serial::decode(State::fresh(), words, out))
}

#[unsafe(no_mangle)]
pub extern "C" fn speed_ask(
    system: u32,
    start: u32,
    trailer: &[u8],
    index: &[u8],
    length: u64,
    a: u32,
    b: u32,
) -> u32
    ensures { result ≡ (answer_of system start trailer.now index.now length a b).number }
{
    match index::ask(system, start, trailer, index, length, a, b) {
        Ok(_) => 0,
        Err(refused) => refused.reason.number(),
    }
}
