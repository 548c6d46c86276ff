// The packets file that `record` takes: its entries in turn, each with the line whose turn it is. What is made of the bytes that were read is in
// the contracts here; what comes of reading is up to the system.
ghost use Rattle.std.specs.Prelude.{◌≡◌, ◌*◌, ◌≤◌, false, length, OnOk, IfOk};
ghost use Rattle.words.specs.Bytes.{words_of};
ghost use Rattle.captions.specs.Entry.{most_words};
ghost use Rattle.station.specs.declared.entries.Next.TheVariants.{Nothing, Told};
ghost use Rattle.station.specs.Entries.{is_left, is_lost, is_for, with_next, next_line, behind_entry, head_taken, untaken_of, words_taken};

use captions::{ACTIVE, BETWEEN, Entry, HEAD_LENGTH, MOST_WORDS};
use host::Host;
use intake::Filled;
use std::num::wrapping_add_u64;

// What comes next in a packets file: nothing, an entry, bytes that are none, or a read that failed. It stays one enum: a Result of an Option would
// name the same four in two types.
#[derive(Clone, Copy)]
pub(crate) enum Next {
    Nothing,
    Told(Entry),
    Bad,
    Lost,
}

// A packets file where a line is awaited: its descriptor, the line's ordinal, what comes next in the file and at which byte, and the least key
// that may come.
#[derive(Clone, Copy)]
pub(crate) struct Entries {
    file: Option<i32>,
    pub(crate) ordinal: u64,
    pub(crate) at: u64,
    least: u64,
    pub(crate) next: Next,
}

// The entries behind what a space took, and how many words it took.
#[derive(Clone, Copy)]
pub(crate) struct Taken {
    pub(crate) entries: Entries,
    pub(crate) count: usize,
}

// The entries behind a line's packets, and how many words each of its spaces took.
#[derive(Clone, Copy)]
pub(crate) struct LineTaken {
    pub(crate) entries: Entries,
    pub(crate) between: usize,
    pub(crate) active: usize,
}

// A packets file at its start, of which nothing is read yet, or none.
fn at_start(file: Option<i32>) -> Entries
    ensures { result.next ≡ Nothing }
{
    Entries {
        file,
        ordinal: 0,
        at: 0,
        least: 0,
        next: Next::Nothing,
    }
}

// What there is without a packets file.
pub(crate) fn no_entries() -> Entries
    ensures { result.next ≡ Nothing }
{
    at_start(None)
}

// The entries of a packets file.
pub(crate) fn entries_of(host: &mut Host, file: i32) -> Entries {
    at_start(Some(file)).read_head(host)
}

// Whether an entry is for this space of this line.
fn is_for(entry: Entry, ordinal: u64, space: u32) -> bool
    ensures { result ≡ is_for (Told entry) ordinal space }
{
    entry.ordinal == ordinal && entry.space == space
}

// Nothing for a space.
fn not_taken(entries: Entries) -> Taken
    ensures { result ≡ untaken_of entries }
{
    Taken { entries, count: 0 }
}

// The entries behind an entry whose words were filled: what is left where they could not be had. A failed read is not the end, and what the file
// lacks makes the entry none.
#[tactic(auto, unfolding(crate::specs::Entries::words_taken))]
fn filled_words(
    entries: Entries,
    filled: Filled,
    bytes: &[u8],
    words: &mut [u16],
) -> Result<Taken, Entries>
    requires { length bytes.now ≡ 2 * length words.old }
    ensures answer { result ≡ words_taken entries filled (length bytes.now) (length words.old) }
    ensures words { OnOk result (words.new ≡ words_of bytes.now) }
{
    if filled.failed {
        return Err(entries.with_next(Next::Lost));
    }
    if filled.have < bytes.len() {
        return Err(entries.with_next(Next::Bad));
    }
    let count = words.len();
    words::to_words(bytes, words).unwrap();
    Ok(Taken {
        entries: entries.behind(bytes.len()),
        count,
    })
}

impl Entries {
    fn with_next(self, next: Next) -> Entries
        ensures { result ≡ with_next self next }
    {
        Entries { next, ..self }
    }

    // Where the next line is awaited.
    pub(crate) fn next_line(self) -> Entries
        ensures { result ≡ next_line self }
    {
        Entries {
            ordinal: wrapping_add_u64(self.ordinal, 1),
            ..self
        }
    }

    // Behind an entry with so many bytes of words.
    fn behind(self, size: usize) -> Entries
        ensures { result ≡ behind_entry self size }
    {
        Entries {
            at: wrapping_add_u64(wrapping_add_u64(self.at, HEAD_LENGTH as u64), size as u64),
            ..self
        }
    }

    // Fills a buffer from where the file was read. Without a file it ends at once.
    fn fill(self, host: &mut Host, buffer: &mut [u8]) -> Filled
        ensures { result.have ≤ length buffer.new }
    {
        match self.file {
            Some(file) => console::fill(host, file, buffer),
            None => Filled {
                have: 0,
                done: true,
                failed: false,
            },
        }
    }

    // What comes next, given what was filled of a head: nothing at the end of the file, otherwise what the head is judged. A failed read is not the
    // end.
    #[tactic(auto, unfolding(crate::specs::Entries::head_taken))]
    fn after_head(self, head: &[u8], filled: Filled) -> Entries
        requires { filled.have ≤ length head.now }
        ensures { result ≡ head_taken self head.now filled }
    {
        if filled.failed {
            return self.with_next(Next::Lost);
        }
        let have = filled.have;
        if have == 0 {
            return self.with_next(Next::Nothing);
        }
        match captions::judge_head(self.least, &head[0..have]) {
            Ok(told) => Entries {
                least: told.least,
                next: Next::Told(told.entry),
                ..self
            },
            Err(_) => self.with_next(Next::Bad),
        }
    }

    // Reads the next head.
    fn read_head(self, host: &mut Host) -> Entries {
        let mut head = [0u8; HEAD_LENGTH];
        let filled = self.fill(host, &mut head);
        self.after_head(&head, filled)
    }

    // Whether a read failed.
    pub(crate) fn is_lost(self) -> bool
        ensures { result ≡ is_lost self.next }
    {
        matches!(self.next, Next::Lost)
    }

    // Whether anything is left in the file: an entry, or what cannot be one.
    pub(crate) fn is_left(self) -> bool
        ensures { result ≡ is_left self.next }
    {
        !matches!(self.next, Next::Nothing)
    }

    // Whether an entry comes next.
    pub(crate) fn is_told(self) -> bool {
        matches!(self.next, Next::Told(_))
    }

    // Takes the words of an entry by way of room for their bytes, and reads the head behind them.
    fn take_entry(self, host: &mut Host, entry: Entry, words: &mut [u16]) -> Result<Taken, Entries>
        requires { length words.old ≡ most_words }
        ensures { IfOk result (λ taken. taken.count ≤ most_words) }
    {
        let count = entry.words as usize;
        if MOST_WORDS < count {
            return Err(self.with_next(Next::Bad));
        }
        let mut room = [0u8; 2 * MOST_WORDS];
        let bytes = &mut room[0..2 * count];
        let filled = self.fill(host, bytes);
        let taken = filled_words(self, filled, bytes, &mut words[0..count])?;
        let behind = taken.entries.read_head(host);
        if behind.is_lost() {
            return Err(behind);
        }
        Ok(Taken {
            entries: behind,
            count,
        })
    }

    // Takes the words for a space of the awaited line, where the next entry has them.
    fn take(self, host: &mut Host, space: u32, words: &mut [u16]) -> Result<Taken, Entries>
        requires { length words.old ≡ most_words }
        ensures within { IfOk result (λ taken. taken.count ≤ most_words) }
        ensures other { is_for self.next self.ordinal space ≡ false → result ≡ Ok (untaken_of self) }
    {
        match self.next {
            Next::Told(entry) if is_for(entry, self.ordinal, space) => {
                self.take_entry(host, entry, words)
            }
            _ => Ok(not_taken(self)),
        }
    }

    // Takes the words for both spaces of the awaited line. The error is what is left where some could not be had.
    pub(crate) fn take_line(
        self,
        host: &mut Host,
        between: &mut [u16],
        active: &mut [u16],
    ) -> Result<LineTaken, Entries>
        requires { (length between.old ≡ most_words) × (length active.old ≡ most_words) }
        ensures { IfOk result (λ taken. (taken.between ≤ most_words) × (taken.active ≤ most_words)) }
    {
        let first = self.take(host, BETWEEN, between)?;
        let second = first.entries.take(host, ACTIVE, active)?;
        Ok(LineTaken {
            entries: second.entries,
            between: first.count,
            active: second.count,
        })
    }
}
