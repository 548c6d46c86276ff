// How bytes arrive: what a read tells by its count, and a buffer that is filled read by read.
#![tactic(auto)]

ghost use Rattle.std.specs.Prelude.{◌≡◌, length};
ghost use Rattle.intake.specs.Arrival.{told_of, WithinRoom, so_far, filled_after};

// What a read told.
#[derive(Clone, Copy, Debug, PartialEq, Eq)]
pub enum Told {
    Failed,
    Ended,
    Bytes { count: usize },
}

// What a read told by its count, where this was the room for its bytes. A failed read is never the end of the input; and a read into no
// room tells nothing, since it would answer 0 as at the end. The count is a bare number, as a read answers it: `told_of` gives any of them a
// meaning.
pub fn tells(got: isize, room: &[u8]) -> Told
    ensures told { result ≡ told_of got (length room.now) }
    ensures room { WithinRoom result (length room.now) }
{
    if room.len() == 0 {
        return Told::Failed;
    }
    if got < 0 {
        return Told::Failed;
    }
    let count = io::count(got, room);
    if count == 0 {
        return Told::Ended;
    }
    Told::Bytes { count }
}

// How many bytes of a buffer were filled, and whether reading is done: the buffer is full, the input has ended, or a read failed. Two flags, since
// `filled_after` tells of both whatever is read next.
#[derive(Clone, Copy)]
pub struct Filled {
    pub have: usize,
    pub done: bool,
    pub failed: bool,
}

impl Filled {
    // So many bytes were filled, and reading goes on.
    pub fn so_far(have: usize) -> Filled
        ensures { result ≡ so_far have }
    {
        Filled {
            have,
            done: false,
            failed: false,
        }
    }

    // What was filled after a read that told this, with so much room left.
    pub fn after(self, told: Told, room: usize) -> Filled
        ensures { result ≡ filled_after self told room }
    {
        match told {
            Told::Failed => Filled {
                done: true,
                failed: true,
                ..self
            },
            Told::Ended => Filled {
                done: true,
                ..Filled::so_far(self.have)
            },
            Told::Bytes { count } => Filled {
                have: self.have.wrapping_add(count),
                done: count == room,
                failed: false,
            },
        }
    }
}
