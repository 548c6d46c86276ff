// The crate system: the figures of the two systems, and fresh walks.
use cases::Numbers;
use system::{Figures, Fresh, System, System525, System625};

fn of_fresh(fresh: Fresh) -> Numbers {
    Numbers::one(fresh.number)
        .with_place(fresh.place)
        .with_walk(fresh.walk)
}

// System525::fresh_walk, or System625::fresh_walk.
fn own_fresh(system: u32, start: u32) -> Numbers {
    match system {
        525 => of_fresh(System525::fresh_walk(start)),
        625 => of_fresh(System625::fresh_walk(start)),
        _ => Numbers::none(),
    }
}

// System525::v and f, System625::v and f.
fn own_flags(line: u32) -> Numbers {
    Numbers::none()
        .with_truth(System525::v(line))
        .with_truth(System525::f(line))
        .with_truth(System625::v(line))
        .with_truth(System625::f(line))
}

// A system by the number that names it.
pub(crate) fn system_number(system: System) -> u32 {
    match system {
        System::Lines525 => 525,
        System::Lines625 => 625,
    }
}

// System::try_from: its answer, and the system's number, 0 where it refuses.
fn system_named(number: u32) -> Numbers {
    match System::try_from(number) {
        Ok(system) => Numbers::of_result(Ok(())).with(system_number(system)),
        Err(refused) => Numbers::of_result(Err(refused)).with(0),
    }
}

// System::line_length, sav_offset, active_offset and line_count.
fn figures(system: System) -> Numbers {
    Numbers::none()
        .with_place(system.line_length())
        .with_place(system.sav_offset())
        .with_place(system.active_offset())
        .with(system.line_count())
}

// System::v, f and next_line.
fn flags(system: System, line: u32) -> Numbers {
    Numbers::none()
        .with_truth(system.v(line))
        .with_truth(system.f(line))
        .with(system.next_line(line))
}

// The calls on the numbers of a line that is to be written: its system's, its own, and that of the line at which V of the first field falls.
pub(crate) fn written(kind: u32, system: u32, line: u32, fall: u32) -> Numbers {
    match kind {
        38 => Numbers::of_result(system::written_refusal(system, line, fall)),
        39 => Numbers::none().with_truth(system::system_of(system).v_written(line, fall)),
        _ => Numbers::none(),
    }
}

pub(crate) fn answered(kind: u32, first: u32, second: u32) -> Numbers {
    match kind {
        2 => of_fresh(system::fresh_walk(first, second)),
        20 => own_flags(first),
        21 => own_fresh(first, second),
        22 => Numbers::one(system_number(system::system_of(first))),
        23 => figures(system::system_of(first)),
        24 => flags(system::system_of(first), second),
        28 => Numbers::of_result(system::named_refusal(first, second)),
        52 => system_named(first),
        _ => Numbers::none(),
    }
}
