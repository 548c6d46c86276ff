// The packets file beside a programme: the heads of its entries, put and judged.
#![tactic(auto)]

ghost use Rattle.std.specs.Prelude.{◌≡◌, ◌+◌, ◌<◌, ◌≤◌, length};
ghost use Rattle.refusal.specs.Reasons.{answered};
ghost use Rattle.captions.specs.Entry.{head_length, most_space, ordinal_bound, entry_of, key_of, head_of, is_bad, head_refusal, head_judged, judged_told, put_refusal, head_after};

use refusal::{Reason, Refused};

// The bytes of a head: ordinal (8), space (2), words (2), low byte first.
pub const HEAD_LENGTH: usize = 12;

// The spaces of a line: the one between EAV and SAV, and the active part. Numbers, since bytes may tell any in Entry::space.
pub const BETWEEN: u32 = 0;

pub const ACTIVE: u32 = 1;

// No space holds more words.
pub const MOST_WORDS: usize = 1440;

// No ordinal is as large: the key behind the last entry is a number of 64 bits.
const ORDINAL_BOUND: u64 = 1 << 62;

// What a head tells: a line's ordinal from 0, a space (0 between EAV and SAV, 1 the active part), and how many packet words follow.
#[derive(Clone, Copy, Debug, PartialEq, Eq)]
pub struct Entry {
    pub ordinal: u64,
    pub space: u32,
    pub words: u32,
}

// A head that is judged well: the entry, and the least key that may come next.
#[derive(Clone, Copy, Debug, PartialEq, Eq)]
pub struct Head {
    pub entry: Entry,
    pub least: u64,
}

// The entry that a head tells.
#[tactic(auto, unfolding(crate::specs::Entry::entry_of, words::specs::Bytes::number_from))]
fn entry_of(head: &[u8]) -> Entry
    requires { length head.now ≡ head_length }
    ensures { result ≡ entry_of head.now }
{
    Entry {
        ordinal: u64::from_le_bytes([
            head[0], head[1], head[2], head[3], head[4], head[5], head[6], head[7],
        ]),
        space: u32::from(u16::from_le_bytes([head[8], head[9]])),
        words: u32::from(u16::from_le_bytes([head[10], head[11]])),
    }
}

// The number of an entry's line and space, in the order in which entries stand.
fn key_of(entry: Entry) -> u64
    requires { (entry.ordinal < ordinal_bound) × (entry.space ≤ most_space) }
    ensures { result ≡ key_of entry }
{
    2 * entry.ordinal + u64::from(entry.space)
}

// Whether an entry is none where this is the least key that may come.
#[tactic(auto, unfolding(crate::specs::Entry::is_bad))]
fn is_bad(least: u64, entry: Entry) -> bool
    ensures { result ≡ is_bad least entry }
{
    ORDINAL_BOUND <= entry.ordinal
        || ACTIVE < entry.space
        || entry.words == 0
        || MOST_WORDS < entry.words as usize
        || key_of(entry) < least
}

// Judges the head of an entry, where this is the least key that may come: 22 for one that is no head, a line or a space that there is not, no
// words or more than a space holds, and one that does not rise.
#[tactic(auto, using(crate::proofs::Entries::comes), unfolding(crate::specs::Entry::head_judged, crate::specs::Entry::head_refusal))]
pub fn judge_head(least: u64, head: &[u8]) -> Result<Head, Refused>
    ensures answer { judged_told least result ≡ head_judged least head.now }
    ensures refusal { answered result ≡ head_refusal least head.now }
{
    if head.len() != HEAD_LENGTH {
        return Err(Reason::BadEntry.at(0));
    }
    let entry = entry_of(head);
    if is_bad(least, entry) {
        return Err(Reason::BadEntry.at(0));
    }
    Ok(Head {
        entry,
        least: key_of(entry) + 1,
    })
}

// Fills a head with an entry.
fn fill_head(entry: Entry, head: &mut [u8])
    requires { length head.old ≡ head_length }
    ensures { head.new ≡ head_of entry }
{
    head[..8].copy_from_slice(&entry.ordinal.to_le_bytes());
    head[8..10].copy_from_slice(&entry.space.to_le_bytes()[..2]);
    head[10..].copy_from_slice(&entry.words.to_le_bytes()[..2]);
}

// Puts the head of an entry into bytes: 3 where they are not twelve, and then nothing is written. Of space and words the low 16 bits count.
#[tactic(auto, unfolding(crate::specs::Entry::head_after, refusal::specs::Answer::written_by))]
pub fn put_head(entry: Entry, head: &mut [u8]) -> Result<(), Refused>
    ensures answer { answered result ≡ put_refusal (length head.old) }
    ensures head { head.new ≡ head_after entry head.old }
{
    if head.len() != HEAD_LENGTH {
        return Err(Reason::WrongLength.at(0));
    }
    fill_head(entry, head);
    Ok(())
}
