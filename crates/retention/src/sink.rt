// Where judged lines go, with the entries of those that were not clean: into a file that is being finished, or beside the index of one that is
// checked.
ghost use Rattle.std.specs.Prelude.{◌≡◌, ◌-◌, length};
ghost use Rattle.retention.specs.Turn.{Answers, entries_room, due_beside, behind_of, met_by, met_some, taken_by, end_by, checks, differs};

use crate::pieces::{filled_status, least, written_status};
use console::Status;
use finished::Meeting;
use host::Host;
use index::ENTRY_LENGTH;

// The index of a file that is checked: the place of its next entry, how many bytes are left of it, and how the entries met so far.
#[derive(Clone, Copy)]
pub(crate) struct Index {
    pub(crate) file: i32,
    pub(crate) offset: u64,
    pub(crate) left: u64,
    pub(crate) meeting: Meeting,
}

// The file that is finished, with one beside it where entries wait until the lines have ended; or the index of the file that is checked.
#[derive(Clone, Copy)]
pub(crate) enum Sink {
    Finishing { file: i32, beside: i32 },
    Checking(Index),
}

impl Index {
    // The index behind entries that met so many bytes of it.
    fn behind(self, due: usize, meeting: Meeting) -> Index
        ensures { result ≡ behind_of self due meeting }
    {
        Index {
            file: self.file,
            offset: self.offset.wrapping_add(due as u64),
            left: self.left.saturating_sub(due as u64),
            meeting,
        }
    }

    // Meets entries with those of the index in their place, which are at most so many bytes.
    fn meet(self, host: &mut Host, entries: &[u8], most: usize) -> Result<Index, Status>
        ensures { (answers : Answers) × (result ≡ met_by self entries.now (due_beside self most) answers) }
    {
        let mut room = [0u8; crate::carrying::ENTRIES_ROOM];
        let due = least(self.left, most.min(room.len()));
        let filled = console::fill_at(host, self.file, self.offset, &mut room[..due]);
        filled_status(filled, due)?;
        Ok(self.behind(due, self.meeting.meet(entries, &room[..due])))
    }

    // Meets the entries of lines, where they have any.
    fn meet_some(self, host: &mut Host, entries: &[u8]) -> Result<Index, Status>
        ensures { (answers : Answers) × (result ≡ met_some self entries.now answers) }
    {
        if entries.is_empty() {
            return Ok(self);
        }
        self.meet(host, entries, entries.len())
    }
}

impl Sink {
    // Whether lines are checked, so that the input has to have all of them.
    pub(crate) fn checks(self) -> bool
        ensures { result ≡ checks self }
    {
        matches!(self, Sink::Checking(_))
    }

    // Whether the index differs from that of the lines so far.
    pub(crate) fn differs(self) -> bool
        ensures { result ≡ differs self }
    {
        match self {
            Sink::Finishing { .. } => false,
            Sink::Checking(index) => index.meeting.differs,
        }
    }

    // Takes lines and their entries.
    pub(crate) fn take(self, host: &mut Host, lines: &[u8], entries: &[u8]) -> Result<Sink, Status>
        ensures { (answers : Answers) × (result ≡ taken_by self entries.now answers) }
    {
        match self {
            Sink::Finishing { file, beside } => {
                written_status(host.write_all(file, lines) && host.write_all(beside, entries))?;
                Ok(self)
            }
            Sink::Checking(index) => Ok(Sink::Checking(index.meet_some(host, entries)?)),
        }
    }

    // How all entries met, behind the last line: one that is left in the index differs.
    pub(crate) fn end(self, host: &mut Host) -> Result<Meeting, Status>
        ensures { (answers : Answers) × (result ≡ end_by self answers) }
    {
        match self {
            Sink::Finishing { .. } => Ok(Meeting::NONE),
            Sink::Checking(index) => Ok(index.meet(host, &[], ENTRY_LENGTH)?.meeting),
        }
    }
}
