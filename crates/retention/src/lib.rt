// Finished files: finishing a recording, asking of lines, the full check, and the way back. What is decided of lines, index and trailer stands
// in `index` and `finished`; these loops carry bytes. What comes of them is up to the system, so no contract can determine it.
#![tactic(auto)]

ghost use Rattle.std.specs.Prelude.{◌≡◌};
ghost use Rattle.retention.specs.Turn.{exit_of, failure_of};

mod asking;
mod carrying;
mod checking;
mod finishing;
mod pieces;
mod reopening;
mod sink;

pub use asking::ask;
pub use checking::check;
use console::Status;
pub use finishing::finish;
use host::Host;
pub use reopening::unfinish;

// A finished file as it is asked for: its descriptor, its system and its start line.
#[derive(Clone, Copy)]
pub struct File {
    pub number: i32,
    pub system: u32,
    pub start: u32,
}

// Says what the system failed in, and answers the exit status, which is never 0.
fn failed(host: &mut Host, verb: &[u8], name: &[u8], status: Status) -> u32
    ensures { result ≡ failure_of status }
{
    status.say_failure(host, verb, name);
    let code = status.code();
    if code == 0 { 2 } else { code }
}

// The exit status that a verb came to, or that of what the system failed in.
fn exit(host: &mut Host, verb: &[u8], name: &[u8], came: Result<u32, Status>) -> u32
    ensures { result ≡ exit_of came }
{
    match came {
        Ok(status) => status,
        Err(status) => failed(host, verb, name, status),
    }
}
