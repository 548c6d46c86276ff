// The index of the lines, as they are judged, beside the one that stands in the file.
ghost use Rattle.std.specs.Prelude.{◌≡◌, ◌+◌, ◌≤◌, true, length, take, drop};
ghost use Rattle.index.specs.Entries.{entry_length, entry_of, entries_of};
ghost use Rattle.finished.specs.Check.{differs_at, lower, differing, met_of, is_theirs, differs_before};

use confirmation::Run;
use index::{ENTRY_LENGTH, Entry};

// Whether the two differ, and the first ordinal where they do. Two fields and no `Option`, since the promise `DiffersFirst` speaks of both.
#[derive(Clone, Copy)]
pub struct Meeting {
    pub differs: bool,
    pub ordinal: u32,
}

// The entry of six bytes.
fn entry(bytes: &[u8]) -> Entry
    requires { length bytes.now ≡ entry_length }
    ensures { result ≡ entry_of bytes.now }
{
    Entry::of([bytes[0], bytes[1], bytes[2], bytes[3], bytes[4], bytes[5]])
}

fn differs_at(ordinal: u32) -> Meeting
    ensures { result ≡ differs_at ordinal }
{
    Meeting {
        differs: true,
        ordinal,
    }
}

// Where entries differ first.
fn differ(ours: &[u8], theirs: &[u8]) -> Meeting
    ensures { result ≡ differing (entries_of ours.now) (entries_of theirs.now) }
{
    let mut our_rest = ours.chunks_exact(ENTRY_LENGTH);
    let mut their_rest = theirs.chunks_exact(ENTRY_LENGTH);
    loop {
        match (our_rest.next(), their_rest.next()) {
            (None, None) => return Meeting::NONE,
            (Some(our), None) => return differs_at(entry(our).ordinal),
            (None, Some(their)) => return differs_at(entry(their).ordinal),
            (Some(our), Some(their)) => {
                let our = entry(our);
                let their = entry(their);
                if our != their {
                    return differs_at(our.ordinal.min(their.ordinal));
                }
            }
        }
    }
}

impl Meeting {
    // No difference so far.
    pub const NONE: Meeting = Meeting {
        differs: false,
        ordinal: 0,
    };

    // With entries more of the lines, and those that the file's index has in their place. At the end of the lines there are no more of theirs,
    // and an entry that is left in the file's differs.
    #[tactic(auto, unfolding(crate::specs::Check::met_of))]
    pub fn meet(self, ours: &[u8], theirs: &[u8]) -> Meeting
        ensures { result ≡ met_of self ours.now theirs.now }
    {
        if self.differs {
            return self;
        }
        if ours == theirs {
            return Meeting::NONE;
        }
        differ(ours, theirs)
    }
}

// What the full check says of a file that is not refused: all lines were accepted, and the index is theirs.
#[tactic(auto, unfolding(crate::specs::Check::is_theirs))]
pub fn is_theirs(run: Run, meeting: Meeting) -> bool
    ensures { result ≡ is_theirs run meeting }
{
    run.number == 0 && !meeting.differs
}

// What is told of a file that is not theirs: the index, where it differs at an ordinal before that of the refused line; or that line.
#[tactic(auto, unfolding(crate::specs::Check::differs_before))]
pub fn differs_before(run: Run, meeting: Meeting) -> bool
    ensures { result ≡ differs_before run meeting }
{
    meeting.differs && (run.number == 0 || meeting.ordinal < run.walk.lines)
}
