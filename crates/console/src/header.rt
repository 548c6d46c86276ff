// The header that a recording begins with.
ghost use Rattle.std.specs.Prelude.{◌≡◌, ◌%◌, [], ◌∷◌, length};
ghost use Rattle.words.specs.Bytes.{bytes_of};
ghost use Rattle.confirmation.specs.Run.{header_length};

use host::Host;
use system::Walk;

// A header: the system and the first line as words.
#[tactic(auto, using(refusal::proofs::Results::ok_written, words::proofs::Bytes::pairs_accepted))]
fn fill_header(walk: Walk, header: &mut [u8])
    requires { length header.old ≡ header_length }
    ensures { header.new ≡ bytes_of (walk.system % 65536 ∷ walk.line % 65536 ∷ []) }
{
    words::to_bytes(
        &[(walk.system % 65536) as u16, (walk.line % 65536) as u16],
        header,
    )
    .unwrap();
}

// Writes the header of a recording that begins with this walk. True where all of it was written.
pub fn put_header(host: &mut Host, output: i32, walk: Walk) -> bool {
    let mut header = [0u8; 4];
    fill_header(walk, &mut header);
    host.write_all(output, &header)
}
