// What recordings come to, one after the other: a line for each, the sums, and the worst status.
use crate::help::Verb;
use crate::wrong::Failed;
use confirmation::{Run, Totals};
use console::{Read, Status};
use host::{ERRORS, Host, OUTPUT};
use station::{Extracted, Sidecar};

// What is done with recordings: the verb, and the name of the packets file, which is empty where there is none.
#[derive(Clone, Copy)]
pub(crate) struct Task<'a> {
    pub(crate) verb: Verb,
    pub(crate) packets: &'a [u8],
}

impl Task<'_> {
    pub(crate) fn is_extracting(self) -> bool {
        self.verb != Verb::Confirm
    }

    // Where the lines of recordings go. Where standard output takes the rows of the picture, or the list of packets, that is standard error.
    pub(crate) fn output(self) -> i32 {
        if self.is_extracting() { ERRORS } else { OUTPUT }
    }

    // Says that an output failed.
    pub(crate) fn unwritten(self, host: &mut Host) -> Failed {
        console::say_unwritten(host, self.verb.name());
        Failed
    }
}

// The sums and the worst status so far, the run before, and what is kept beside the rows.
#[derive(Clone, Copy)]
pub(crate) struct Tally<'a> {
    pub(crate) task: Task<'a>,
    totals: Totals,
    status: u32,
    pub(crate) before: Run,
    pub(crate) sidecar: Sidecar,
}

// A run that nothing follows on: it was not accepted.
fn no_run() -> Run {
    Run::begin(&[])
}

impl<'a> Tally<'a> {
    pub(crate) fn none(task: Task<'a>, sidecar: Sidecar) -> Tally<'a> {
        Tally {
            task,
            totals: Totals::none(),
            status: 0,
            before: no_run(),
            sidecar,
        }
    }

    // Whether there is more to do: extracting stops at what is not accepted.
    pub(crate) fn is_open(&self) -> bool {
        self.status == 0 || !self.task.is_extracting()
    }

    // What comes follows on nothing.
    pub(crate) fn part(&mut self) {
        self.before = no_run();
    }

    // The status is at least so bad.
    pub(crate) fn mar(&mut self, status: u32) {
        self.status = self.status.max(status);
    }

    // A recording more that could not be read, which was said.
    pub(crate) fn add_unread(&mut self, host: &mut Host, name: &[u8]) -> Result<(), Failed> {
        if !console::print_unread(host, self.task.output(), name) {
            return Err(self.task.unwritten(host));
        }
        self.part();
        self.totals = self.totals.with_unread();
        self.mar(2);
        Ok(())
    }

    // A recording more that came to its end or a refusal.
    fn add_run(&mut self, host: &mut Host, name: &[u8], run: Run) -> Result<(), Failed> {
        let outcome = run.outcome();
        if !console::print_row(host, self.task.output(), outcome, name) {
            return Err(self.task.unwritten(host));
        }
        self.totals = self.totals.with_read(outcome);
        self.before = run;
        if run.number != 0 {
            console::say_refused(host, self.task.verb.name(), name, outcome);
            self.mar(1);
        }
        Ok(())
    }

    // A recording more, however it ended, and what is kept beside its rows.
    pub(crate) fn add(
        &mut self,
        host: &mut Host,
        name: &[u8],
        extracted: Extracted,
    ) -> Result<(), Failed> {
        self.sidecar = extracted.sidecar;
        let Read { run, status } = extracted.read;
        status.say_failure(host, self.task.verb.name(), name);
        match status {
            Status::Unread => self.add_unread(host, name),
            Status::Unwritten | Status::Failed => Err(Failed),
            _ => self.add_run(host, name, run),
        }
    }

    // Writes the sums, and answers the exit status.
    pub(crate) fn end(&self, host: &mut Host) -> Result<u32, Failed> {
        if !console::print_totals(host, self.task.output(), self.totals) {
            return Err(self.task.unwritten(host));
        }
        Ok(self.status)
    }
}
