// The command as a program: its answer is the process's status.
#![tactic(auto)]

use host::Host;
use std::process::ExitCode;

// The status where the system failed.
const FAILED: u8 = 2;

// Runs the command with the process's arguments. What it comes to is up to the system, so no contract can determine it.
fn main(rt: HostRuntime) -> ExitCode {
    let mut host = Host::new(rt);
    if !host.has_errors() {
        return ExitCode::from(FAILED);
    }
    let status = verbs::run(&mut host);
    ExitCode::from(u8::try_from(status).unwrap_or(FAILED))
}
