// Names of any bytes, on one line.
ghost use Rattle.std.specs.Prelude.{◌≡◌, ◌-◌, ◌++◌, take};
ghost use Rattle.arrayvec.specs.ArrayVec.{array_vec_len};

use arrayvec::ArrayVec;
use host::Host;
use std::io::Write;

// Room for a name: 4096 bytes at most, of which each takes four at most.
const ROOM: usize = 4 * 4096;

// A byte that is written as it is: no control byte, which might end the line, and no backslash, which begins another's form.
fn is_plain(byte: u8) -> bool {
    32 <= byte && byte != 127 && byte != b'\\'
}

// Puts bytes into a text, as far as there is room.
pub fn put<const N: usize>(text: &mut ArrayVec<u8, N>, bytes: &[u8])
    ensures { text.new.items ≡ text.old.items ++ take (N - array_vec_len text.old) bytes.now }
{
    let _ = text.write(bytes);
}

// Puts a byte of a name into the text, as itself or as \xHH.
fn put_shown<const N: usize>(text: &mut ArrayVec<u8, N>, byte: u8) {
    if is_plain(byte) {
        put(text, &[byte]);
    } else {
        let _ = write!(text, "\\x{byte:02x}");
    }
}

// Writes a name. True where all of it was written.
pub fn say_name(host: &mut Host, output: i32, name: &[u8]) -> bool {
    let mut text = ArrayVec::<u8, ROOM>::new();
    for byte in name {
        put_shown(&mut text, *byte);
    }
    host.write_all(output, text.as_slice())
}
