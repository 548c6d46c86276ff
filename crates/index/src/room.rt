// Room for the bytes of an entry or of a trailer.
ghost use Rattle.std.specs.Prelude.{◌≡◌, length};
ghost use Rattle.refusal.specs.Answer.{written_by};
ghost use Rattle.refusal.specs.Reasons.{answered};
ghost use Rattle.index.specs.Parts.{room_refusal};

use refusal::{Reason, Refused};

// Puts bytes into room: 3 where it has another length, and then nothing is written.
#[tactic(auto, unfolding(refusal::specs::Answer::written_by))]
pub(crate) fn put_bytes(bytes: &[u8], room: &mut [u8]) -> Result<(), Refused>
    ensures answer { answered result ≡ room_refusal (length bytes.now) (length room.old) }
    ensures room { room.new ≡ written_by (room_refusal (length bytes.now) (length room.old)) bytes.now room.old }
{
    if room.len() != bytes.len() {
        return Err(Reason::WrongLength.at(0));
    }
    room.copy_from_slice(bytes);
    Ok(())
}
