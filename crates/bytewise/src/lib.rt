// Judging a line that is lent as bytes, two per word, low byte first.
#![tactic(auto)]

mod pass;

ghost use Rattle.std.specs.Prelude.{◌≡◌, ◌*◌, ◌≤◌, length};
ghost use Rattle.words.specs.Bytes.{words_of};
ghost use Rattle.system.specs.declared.System.TheVariants.{Lines625};
ghost use Rattle.system.specs.Figures.{line_length};
ghost use Rattle.reader.specs.Judge.{judged_of};
ghost use Rattle.bytewise.specs.Bytes.{judged_bytes};

use crate::pass::{Line, word_at};
use refusal::Refusal;
use system::{Figures, Judgement, System625, Walk};

// Judges so many words of bytes, copied into room that holds at least as many.
fn judge_in(walk: Walk, bytes: &[u8], count: usize, room: &mut [u16]) -> Judgement
    requires { (length bytes.now ≡ 2 * count) × (count ≤ length room.old) }
    ensures { result ≡ judged_of walk (words_of bytes.now) }
{
    words::to_words(bytes, &mut room[0..count]).unwrap();
    reader::judge(walk, &room[0..count])
}

// Judges so many words of bytes, at most as many as the longer line has: slow, and apart from the quick pass, which needs no room for them.
#[inline(never)]
fn judge_words(walk: Walk, bytes: &[u8], count: usize) -> Judgement
    requires { (length bytes.now ≡ 2 * count) × (count ≤ line_length Lines625) }
    ensures { result ≡ judged_of walk (words_of bytes.now) }
{
    let mut room = [0u16; System625::LINE_LENGTH];
    judge_in(walk, bytes, count, &mut room)
}

// Judges the line that a walk awaits from its bytes; offsets count words. A byte count that is not twice the line's words is 3.
pub fn judge(walk: Walk, bytes: &[u8]) -> Judgement
    ensures { result ≡ judged_bytes walk bytes.now }
{
    if let Err(refused) = walk.standing(bytes.len(), walk.line_bytes()) {
        return Judgement::refused(walk, Refusal::from(refused));
    }
    let line = Line::of(walk.due(word_at(bytes, 6)), bytes);
    match line.pass() {
        Some(packets) => Judgement::accepted(walk, line.due, line.report(), packets),
        None => judge_words(walk, bytes, walk.line_words()),
    }
}
