// Rows of v210: three 10-bit samples to a 32-bit word, lowest bits first, low byte first, in the order of the active part.
#![tactic(auto)]

ghost use Rattle.std.specs.Prelude.{◌≡◌, ℕ, ◌+◌, ◌*◌, ◌%◌, ◌<◌, ◌≤◌, length, get_or};
ghost use Rattle.refusal.specs.Reasons.{answered};
ghost use Rattle.line.specs.Samples.{active_length};
ghost use Rattle.v210.specs.Row.{row_length, row_word, unpacked_of, packed_of, spare_refusal, lengths_refusal, unpack_refusal, pack_refusal, samples_after, row_after};
ghost use Rattle.words.specs.Words.{most_word};

use line::ACTIVE_LENGTH;
use refusal::{Reason, Refused};

// The words that hold the samples of an active part.
const ROW_WORDS: usize = ACTIVE_LENGTH / 3;

// Their bytes.
pub const ROW_LENGTH: usize = 4 * ROW_WORDS;

// The highest word whose two spare bits are 0.
const MOST_ROW_WORD: u32 = 1073741823;

// The word with this index, low byte first.
fn word_at(row: &[u8], k: usize) -> u32
    requires { 4 * k + 4 ≤ length row.now }
    ensures { result ≡ row_word row.now k }
{
    let at = 4 * k;
    u32::from_le_bytes([row[at], row[at + 1], row[at + 2], row[at + 3]])
}

// 3 at 0 where what is read has another length than is due, and 3 at 1 where the room for it has.
#[tactic(auto, unfolding(crate::specs::Row::lengths_refusal, refusal::specs::Answer::or_else))]
fn lengths_refusal<const READ: usize, const ROOM: usize>(
    read: usize,
    room: usize,
) -> Result<(), Refused>
    ensures { answered result ≡ lengths_refusal read READ room ROOM }
{
    if read != READ {
        return Err(Reason::WrongLength.at(0));
    }
    if room != ROOM {
        return Err(Reason::WrongLength.at(1));
    }
    Ok(())
}

// 5 at the first word with a spare bit set.
fn spare_refusal(row: &[u8]) -> Result<(), Refused>
    requires { length row.now ≡ row_length }
    ensures { answered result ≡ spare_refusal row.now }
{
    // By index: over the row's chunks it is not proved which word is the first.
    for k in 0..ROW_WORDS {
        if word_at(row, k) > MOST_ROW_WORD {
            return Err(Reason::Over.at(k));
        }
    }
    Ok(())
}

#[tactic(auto, using(crate::proofs::Refusals::unpack_length, crate::proofs::Refusals::unpack_right))]
fn unpack_refusal(row: &[u8], room: usize) -> Result<(), Refused>
    ensures { answered result ≡ unpack_refusal row.now room }
{
    lengths_refusal::<ROW_LENGTH, ACTIVE_LENGTH>(row.len(), room)?;
    spare_refusal(row)
}

// The low ten bits of a number.
fn ten_bits(number: u32) -> u16
    ensures { result ≡ number % 1024 }
{
    (number % 1024) as u16
}

// Takes the samples of a row apart.
fn take_apart(row: &[u8], samples: &mut [u16])
    requires { (length row.now ≡ row_length) × (length samples.old ≡ active_length) }
    ensures { samples.new ≡ unpacked_of row.now }
{
    // By index: a turn reads four places of one slice and writes three of another.
    for k in 0..ROW_WORDS {
        let word = word_at(row, k);
        samples[3 * k] = ten_bits(word);
        samples[3 * k + 1] = ten_bits(word / 1024);
        samples[3 * k + 2] = ten_bits(word / 1048576);
    }
}

// Unpacks a row into the 1440 samples of an active part: 3 at 0 for the row's length, 3 at 1 for the samples', then 5 at the first word
// with a spare bit set. A refusal leaves the samples as they were.
#[tactic(auto, using(crate::proofs::Refusals::samples_stay, crate::proofs::Refusals::samples_written))]
pub fn unpack(row: &[u8], samples: &mut [u16]) -> Result<(), Refused>
    ensures answer { answered result ≡ unpack_refusal row.now (length samples.old) }
    ensures samples { samples.new ≡ samples_after row.now samples.old }
{
    unpack_refusal(row, samples.len())?;
    take_apart(row, samples);
    Ok(())
}

#[tactic(auto, using(crate::proofs::Refusals::pack_length, crate::proofs::Refusals::pack_right))]
fn pack_refusal(samples: &[u16], room: usize) -> Result<(), Refused>
    ensures { answered result ≡ pack_refusal samples.now room }
{
    lengths_refusal::<ACTIVE_LENGTH, ROW_LENGTH>(samples.len(), room)?;
    words::first_over(samples)
}

// Three samples of ten bits as a word.
fn word_of(first: u16, second: u16, third: u16) -> u32
    requires { (first ≤ most_word) × (second ≤ most_word) × (third ≤ most_word) }
    ensures { result ≡ first + 1024 * second + 1048576 * third }
{
    u32::from(first) + 1024 * u32::from(second) + 1048576 * u32::from(third)
}

// Puts samples of ten bits together into a row.
fn put_together(samples: &[u16], row: &mut [u8])
    requires { (length samples.now ≡ active_length) × (length row.old ≡ row_length) × ((i : ℕ) → i < active_length → get_or samples.now i 0 ≤ most_word) }
    ensures { row.new ≡ packed_of samples.now }
{
    // By index: a turn reads three places of one slice and writes four of another.
    for k in 0..ROW_WORDS {
        let word = word_of(samples[3 * k], samples[3 * k + 1], samples[3 * k + 2]);
        // Byte by byte: a copy of the four into their part of the row takes an eighth longer.
        let [b0, b1, b2, b3] = word.to_le_bytes();
        row[4 * k] = b0;
        row[4 * k + 1] = b1;
        row[4 * k + 2] = b2;
        row[4 * k + 3] = b3;
    }
}

// Packs the 1440 samples of an active part into a row: 3 at 0 for the samples' length, 3 at 1 for the row's, then 5 at the first sample
// over 1023. A refusal leaves the row as it was.
#[tactic(auto, using(crate::proofs::Refusals::row_stays, crate::proofs::Refusals::row_written))]
pub fn pack(samples: &[u16], row: &mut [u8]) -> Result<(), Refused>
    ensures answer { answered result ≡ pack_refusal samples.now (length row.old) }
    ensures row { row.new ≡ row_after samples.now row.old }
{
    pack_refusal(samples, row.len())?;
    put_together(samples, row);
    Ok(())
}
