// Extracting a line: the active part of a line's bytes as a row.
ghost use Rattle.std.specs.Prelude.{◌≡◌, ℕ, ◌*◌, ◌<◌, ◌≤◌, length, get_or};
ghost use Rattle.line.specs.Samples.{active_length};
ghost use Rattle.words.specs.Words.{most_word};
ghost use Rattle.words.specs.Bytes.{words_of};
ghost use Rattle.v210.specs.Row.{row_length, packed_of};
ghost use Rattle.programme.specs.Extract.{gives_row, extracted_of, row_after_line};
ghost use Rattle.programme.specs.Extraction.{extraction_of, row_after_next};

use confirmation::Run;
use line::ACTIVE_LENGTH;
use refusal::{Reason, Refusal};
use system::{Judgement, PacketWords, Walk};

// A run after a line's bytes, whether they gave a row, and how many of their words are packets. A flag, and no Option, since extraction_of
// counts packets of lines that give none.
#[derive(Clone, Copy)]
pub struct Extraction {
    pub run: Run,
    pub gives: bool,
    pub packets: PacketWords,
}

// Packs an active part's bytes into a row.
fn pack_active(active: &[u8], row: &mut [u8])
    requires active_len { (length active.now ≡ 2 * active_length) × (length row.old ≡ row_length) }
    requires by_index { (i : ℕ) → i < active_length → get_or (words_of active.now) i 0 ≤ most_word }
    ensures { row.new ≡ packed_of (words_of active.now) }
{
    let mut part = [0u16; ACTIVE_LENGTH];
    words::to_words(active, &mut part).unwrap();
    v210::pack(&part, row).unwrap();
}

// Extracts the line that a walk awaits from its bytes: judges it, and where it is accepted and its V is 0, packs its active part into the
// row. Refused as the byte judge refuses it, then with 3 at 1 for the row's length; the walk then stands and the row stays as it was.
pub fn extract(walk: Walk, bytes: &[u8], row: &mut [u8]) -> Judgement
    ensures answer { result ≡ extracted_of walk bytes.now (length row.old) }
    ensures row { row.new ≡ row_after_line walk bytes.now row.old }
{
    let judgement = bytewise::judge(walk, bytes);
    if judgement.number != 0 {
        return judgement;
    }
    if row.len() != v210::ROW_LENGTH {
        return Judgement::refused(walk, Refusal::from(Reason::WrongLength.at(1)));
    }
    if gives_row(walk, bytes) {
        let size = walk.line_bytes();
        pack_active(&bytes[size - 2 * ACTIVE_LENGTH..size], row);
    }
    judgement
}

// Whether the line that is lent at a walk gives a row: its V is 0.
fn gives_row(walk: Walk, bytes: &[u8]) -> bool
    requires { 8 ≤ length bytes.now }
    ensures { result ≡ gives_row walk bytes.now }
{
    !walk.due(words::word_of(bytes[6], bytes[7])).v
}

// Extracting as a run in steps: the run after these bytes, a line's or what is left at the end, as its next line, whether they gave the row, and
// the packets in them. A run that has ended stays as it is.
#[tactic(auto, unfolding(crate::specs::Extraction::extraction_of, crate::specs::Extraction::row_after_next))]
pub fn extract_next(run: Run, bytes: &[u8], row: &mut [u8]) -> Extraction
    ensures answer { result ≡ extraction_of run bytes.now (length row.old) }
    ensures row { row.new ≡ row_after_next run bytes.now row.old }
{
    if run.number != 0 {
        return Extraction {
            run,
            gives: false,
            packets: PacketWords::NONE,
        };
    }
    let judgement = extract(run.walk, bytes, row);
    Extraction {
        run: run.judged(judgement),
        gives: judgement.number == 0 && gives_row(run.walk, bytes),
        packets: judgement.packets,
    }
}
