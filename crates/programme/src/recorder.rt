// Recording a line: a row's samples, or fill, and packets as the line's bytes.
ghost use Rattle.std.specs.Prelude.{◌≡◌, true, cond, length, IsOk};
ghost use Rattle.refusal.specs.Answer.{none};
ghost use Rattle.refusal.specs.Reasons.{answered};
ghost use Rattle.system.specs.Walk.{line_words};
ghost use Rattle.line.specs.Samples.{active_length, line_of};
ghost use Rattle.v210.specs.Row.{unpacked_of};
ghost use Rattle.programme.specs.Passes.{packets_in};
ghost use Rattle.programme.specs.Record.{due_at_walk, takes_row, row_content, unpacked_refusal, row_refusal, record_standing, record_refusal, recorded_of, line_bytes_after};

use crate::{due_at, takes_row};
use line::ACTIVE_LENGTH;
use refusal::{Reason, Refusal, Refused};
use system::{Figures, Judgement, PacketWords, System625, Walk};
use timing::Report;

// What a line is to carry: a row, and ready packet words for each space.
#[derive(Clone, Copy)]
pub(crate) struct Given<'a> {
    row: &'a [u8],
    between: &'a [u16],
    active: &'a [u16],
}

// The active part of a line that takes a row: 3 at 1 where the row is short, then 5 at its first word with a spare bit set.
#[tactic(auto, using(crate::proofs::Records::unpacked_short, crate::proofs::Records::unpack_row))]
fn take_row(walk: Walk, fall: u32, row: &[u8], part: &mut [u16]) -> Result<(), Refused>
    requires { length part.old ≡ active_length }
    ensures answer { answered result ≡ cond (takes_row fall walk) (unpacked_refusal row.now) none }
    ensures part { IsOk result → takes_row fall walk ≡ true → part.new ≡ unpacked_of row.now }
{
    if !takes_row(walk, fall) {
        return Ok(());
    }
    if row.len() != v210::ROW_LENGTH {
        return Err(Reason::WrongLength.at(1));
    }
    v210::unpack(row, part)
}

// Writes the line that a walk awaits into words: of the row's samples where its V is 0 and otherwise of fill, and of ready packet words.
#[tactic(auto, using(refusal::proofs::Results::err_first), unfolding(crate::specs::Record::row_refusal))]
fn write_words(walk: Walk, fall: u32, given: &Given, words: &mut [u16]) -> Result<(), Refused>
    requires { length words.old ≡ line_words walk }
    ensures answer { answered result ≡ row_refusal fall walk given.now.row.now (packets_in given.now) }
    ensures words { IsOk result → words.new ≡ line_of (due_at_walk fall walk) (row_content given.now.row.now (packets_in given.now)) }
{
    let mut part = [0u16; ACTIVE_LENGTH];
    take_row(walk, fall, given.row, &mut part)?;
    writer::write_part(
        due_at(walk, fall),
        &part,
        given.between,
        given.active,
        words,
    )
}

// What refuses before anything is to be carried: 1, 2, a fall line outside 10 to 20 among it, 4, and 3 at 0 for the line's bytes.
#[tactic(auto, using(refusal::proofs::Results::err_first, refusal::proofs::Results::ok_first), unfolding(crate::specs::Record::record_standing))]
fn standing(walk: Walk, fall: u32, room: usize) -> Result<(), Refused>
    ensures { answered result ≡ record_standing fall walk room }
{
    system::written_refusal(walk.system, walk.line, fall)?;
    walk.standing(room, walk.line_bytes())
}

// Writes that line as bytes.
#[tactic(auto, using(refusal::proofs::Results::err_first, refusal::proofs::Results::ok_first, refusal::proofs::Results::err_stays), unfolding(crate::specs::Record::record_refusal, crate::specs::Record::line_bytes_after))]
fn write_bytes(walk: Walk, fall: u32, given: &Given, line: &mut [u8]) -> Result<(), Refused>
    ensures answer { answered result ≡ record_refusal fall walk given.now.row.now (packets_in given.now) (length line.old) }
    ensures line { line.new ≡ line_bytes_after fall walk given.now.row.now (packets_in given.now) line.old }
{
    standing(walk, fall, line.len())?;
    let mut room = [0u16; System625::LINE_LENGTH];
    let words = &mut room[..walk.line_words()];
    write_words(walk, fall, given, words)?;
    words::to_bytes(words, line)
}

// Records the line that a walk awaits as bytes, where V of the first field falls at this line: a V = 0 line of the row's samples, a V = 1 line
// as fill, whatever the row, and ready packet words for each space. Refused are 1, 2, 4, 3 at 0 for the line's bytes, of a row that is due 3 at 1 for its length and 5 at its first word with a
// spare bit set, ready packet words as the writer refuses them, and 12 at the row's first sample outside 4 to 1019. A refusal leaves the line's
// bytes as they were.
pub fn record(
    walk: Walk,
    fall: u32,
    row: &[u8],
    between: &[u16],
    active: &[u16],
    line: &mut [u8],
) -> Judgement
    ensures answer { result ≡ recorded_of fall walk row.now (record { between = between.now; active = active.now }) (length line.old) }
    ensures line { line.new ≡ line_bytes_after fall walk row.now (record { between = between.now; active = active.now }) line.old }
{
    let given = Given {
        row,
        between,
        active,
    };
    match write_bytes(walk, fall, &given, line) {
        Ok(()) => {
            let packets = PacketWords {
                between: between.len(),
                active: active.len(),
            };
            Judgement::accepted(walk, due_at(walk, fall), Report::CLEAN, packets)
        },
        Err(refused) => Judgement::refused(walk, Refusal::from(refused)),
    }
}
