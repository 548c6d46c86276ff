// `ask`: whether lines are all clean, from the end of a finished file.
ghost use Rattle.std.specs.Prelude.{◌≡◌, Bool};
ghost use Rattle.index.specs.Parts.{asked_told};
ghost use Rattle.retention.specs.Turn.{asked_status};

use crate::pieces::read_parts;
use crate::{File, failed};
use host::{Host, OUTPUT};
use refusal::Refused;

// Says what was answered, on one line. True where all of it was written.
fn print_answer(host: &mut Host, a: u32, b: u32, clean: bool) -> bool {
    let answer: &[u8] = if clean {
        b": all clean\n"
    } else {
        b": not all clean\n"
    };
    console::say(host, OUTPUT, b"lines ", u64::from(a))
        & console::say(host, OUTPUT, b" to ", u64::from(b))
        & host.write_all(OUTPUT, answer)
}

// Says what was answered, and answers the exit status.
fn tell(host: &mut Host, name: &[u8], asked: Result<bool, Refused>, a: u32, b: u32) -> u32
    ensures { (written : Bool) × (result ≡ asked_status (asked_told asked) written) }
{
    let clean = match asked {
        Ok(clean) => clean,
        Err(refused) => {
            console::say_refused_file(host, b"ask", name, refused.reason.number());
            return 2;
        }
    };
    if !print_answer(host, a, b, clean) {
        console::say_unwritten(host, b"ask");
        return 2;
    }
    if clean { 0 } else { 1 }
}

// Whether lines a to b of a finished file are all clean, and the exit status: 0 where they are, 1 where they are not.
pub fn ask(host: &mut Host, file: File, name: &[u8], a: u32, b: u32) -> u32 {
    match read_parts(host, file, a, b) {
        Ok(parts) => tell(host, name, parts.question.close(), a, b),
        Err(status) => failed(host, b"ask", name, status),
    }
}
