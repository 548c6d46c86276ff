// The two systems with their figures, what is due in a line of theirs, and the walk over consecutive lines of one of them.
#![tactic(auto)]

mod due;
mod walk;

ghost use Rattle.std.specs.Prelude.{◌≡◌, ℕ, refl};
ghost use Rattle.refusal.specs.Reasons.{answered};
ghost use Rattle.system.specs.declared.System.{System};
ghost use Rattle.system.specs.declared.System.TheVariants.{Lines525, Lines625};
ghost use Rattle.system.specs.Figures.{system_number, system_of, between, line_length, sav_offset, active_offset, line_count, v_of, may_fall, looks_back, is_fall, v_written, f_of, next_line, turns_field};
ghost use Rattle.system.specs.Refusals.{Names};
ghost use Rattle.system.specs.Walk.{named_refusal, written_refusal, fresh_of};

pub use due::Due;
use refusal::{Reason, Refused};
pub use walk::{Fresh, Judgement, PacketWords, Walk, fresh_walk, repairs};

// Document 01's two systems.
#[derive(Clone, Copy, Debug, PartialEq, Eq)]
pub enum System {
    Lines525,
    Lines625,
}

// The figures of one system, as one set: its number, words in a line, where SAV starts, lines; F and V of its lines, and a fresh walk.
pub trait Figures {
    const SYSTEM: System;

    ghost SYSTEM: { System };

    const NUMBER: u32;

    ghost NUMBER: { ℕ };

    const LINE_LENGTH: usize;

    ghost LINE_LENGTH: { ℕ };

    const SAV_OFFSET: usize;

    ghost SAV_OFFSET: { ℕ };

    const LINE_COUNT: u32;

    ghost LINE_COUNT: { ℕ };

    // They are the system's own.
    ghost number: { NUMBER ≡ system_number SYSTEM };

    ghost length: { LINE_LENGTH ≡ line_length SYSTEM };

    ghost sav: { SAV_OFFSET ≡ sav_offset SYSTEM };

    ghost count: { LINE_COUNT ≡ line_count SYSTEM };

    final fn v(line: u32) -> bool
        ensures { result ≡ v_of SYSTEM line }
    {
        Self::SYSTEM.v(line)
    }

    final fn f(line: u32) -> bool
        ensures { result ≡ f_of SYSTEM line }
    {
        Self::SYSTEM.f(line)
    }

    // A fresh walk from a line of this system, or 2 and a walk all zero.
    final fn fresh_walk(start: u32) -> Fresh
        ensures { result ≡ fresh_of NUMBER start }
    {
        fresh_walk(Self::NUMBER, start)
    }
}

// The figures of the 525-line system.
#[derive(Clone, Copy)]
pub struct System525;

impl Figures for System525 {
    const SYSTEM: System = System::Lines525;

    ghost SYSTEM = { Lines525 };

    const NUMBER: u32 = 525;

    ghost NUMBER = { system_number Lines525 };

    const LINE_LENGTH: usize = 1716;

    ghost LINE_LENGTH = { line_length Lines525 };

    const SAV_OFFSET: usize = 272;

    ghost SAV_OFFSET = { sav_offset Lines525 };

    const LINE_COUNT: u32 = 525;

    ghost LINE_COUNT = { line_count Lines525 };

    ghost number = { refl };

    ghost length = { refl };

    ghost sav = { refl };

    ghost count = { refl };
}

impl System525 {
    // The first and the last line at which V of the first field may fall; the table has it fall at the last.
    pub const FIRST_FALL: u32 = 10;

    pub const LAST_FALL: u32 = 20;
}

// The figures of the 625-line system.
#[derive(Clone, Copy)]
pub struct System625;

impl Figures for System625 {
    const SYSTEM: System = System::Lines625;

    ghost SYSTEM = { Lines625 };

    const NUMBER: u32 = 625;

    ghost NUMBER = { system_number Lines625 };

    const LINE_LENGTH: usize = 1728;

    ghost LINE_LENGTH = { line_length Lines625 };

    const SAV_OFFSET: usize = 284;

    ghost SAV_OFFSET = { sav_offset Lines625 };

    const LINE_COUNT: u32 = 625;

    ghost LINE_COUNT = { line_count Lines625 };

    ghost number = { refl };

    ghost length = { refl };

    ghost sav = { refl };

    ghost count = { refl };
}

impl TryFrom<u32> for System {
    type Error = Refused;

    ghost try_from_gives = { Names };

    // The system that the number names: 1.
    fn try_from(number: u32) -> Result<System, Refused> {
        match number {
            System525::NUMBER => Ok(System::Lines525),
            System625::NUMBER => Ok(System::Lines625),
            _ => Err(Reason::NoSystem.at(0)),
        }
    }
}

// The system that the number names; a number that names none stands for the second here, and is refused before.
#[tactic(auto, unfolding(crate::specs::Figures::system_of))]
pub fn system_of(number: u32) -> System
    ensures { result ≡ system_of number }
{
    if number == System525::NUMBER {
        System::Lines525
    } else {
        System::Lines625
    }
}

impl System {
    // A figure of whichever system this is stands once, among that system's constants; so these match.
    pub fn line_length(self) -> usize
        ensures { result ≡ line_length self }
    {
        match self {
            System::Lines525 => System525::LINE_LENGTH,
            System::Lines625 => System625::LINE_LENGTH,
        }
    }

    pub fn sav_offset(self) -> usize
        ensures { result ≡ sav_offset self }
    {
        match self {
            System::Lines525 => System525::SAV_OFFSET,
            System::Lines625 => System625::SAV_OFFSET,
        }
    }

    pub fn line_count(self) -> u32
        ensures { result ≡ line_count self }
    {
        match self {
            System::Lines525 => System525::LINE_COUNT,
            System::Lines625 => System625::LINE_COUNT,
        }
    }

    // Where the active part starts: after the four words of SAV.
    #[tactic(auto, using(crate::proofs::Laws::sav_high))]
    pub fn active_offset(self) -> usize
        ensures { result ≡ active_offset self }
    {
        self.sav_offset() + 4
    }

    // V of a line: 1 on lines 1-19 and 264-282, or 624-625, 1-22 and 311-335.
    #[tactic(auto, unfolding(crate::specs::Figures::v_of))]
    pub fn v(self, line: u32) -> bool
        ensures { result ≡ v_of self line }
    {
        match self {
            System::Lines525 => (1..=19).contains(&line) || (264..=282).contains(&line),
            System::Lines625 => (624..=625).contains(&line)
                || (1..=22).contains(&line)
                || (311..=335).contains(&line),
        }
    }

    // V of a line that is written, where V of the first field falls at this line: 1 until there, and in the second field from line 264 until
    // 263 lines behind it. 625 has no choice.
    #[tactic(auto, using(crate::proofs::Laws::lines_behind), unfolding(crate::specs::Figures::v_written))]
    pub fn v_written(self, line: u32, fall: u32) -> bool
        ensures { result ≡ v_written self line fall }
    {
        match self {
            System::Lines525 => (1 <= line && line < fall) || (264 <= line && line - 263 < fall),
            System::Lines625 => self.v(line),
        }
    }

    // Whether V may have fallen on a line before the table has it.
    #[tactic(auto, unfolding(crate::specs::Figures::may_fall))]
    pub(crate) fn may_fall(self, line: u32) -> bool
        ensures { result ≡ may_fall self line }
    {
        match self {
            System::Lines525 => (10..=19).contains(&line) || (273..=282).contains(&line),
            System::Lines625 => false,
        }
    }

    // Whether the walk's record of the line before counts on a line.
    #[tactic(auto, unfolding(crate::specs::Figures::looks_back))]
    pub(crate) fn looks_back(self, line: u32) -> bool
        ensures { result ≡ looks_back self line }
    {
        match self {
            System::Lines525 => (11..=19).contains(&line) || (274..=282).contains(&line),
            System::Lines625 => false,
        }
    }

    // Whether V of the first field may fall at this line.
    #[tactic(auto, unfolding(crate::specs::Figures::is_fall))]
    fn is_fall(self, fall: u32) -> bool
        ensures { result ≡ is_fall self fall }
    {
        match self {
            System::Lines525 => (System525::FIRST_FALL..=System525::LAST_FALL).contains(&fall),
            System::Lines625 => true,
        }
    }

    // F of a line: 1 on lines 266-525 and 1-3, or 313-625.
    #[tactic(auto, unfolding(crate::specs::Figures::f_of))]
    pub fn f(self, line: u32) -> bool
        ensures { result ≡ f_of self line }
    {
        match self {
            System::Lines525 => (266..=525).contains(&line) || (1..=3).contains(&line),
            System::Lines625 => (313..=625).contains(&line),
        }
    }

    // Whether a line of the system has this number.
    fn has_line(self, line: u32) -> bool
        ensures { result ≡ between 1 (line_count self) line }
    {
        (1..=self.line_count()).contains(&line)
    }

    // The line after a line: after the last comes line 1.
    #[tactic(auto, using(crate::proofs::Laws::line_count_high), unfolding(crate::specs::Figures::next_line))]
    pub fn next_line(self, line: u32) -> u32
        ensures { result ≡ next_line self line }
    {
        if line < self.line_count() {
            line + 1
        } else {
            1
        }
    }

    // Whether F of a line differs from that of the line before: on lines 4 and 266, or 1 and 313.
    #[tactic(auto, using(crate::proofs::Turns::turns_525, crate::proofs::Turns::turns_625))]
    pub(crate) fn turns_field(self, line: u32) -> bool
        ensures { result ≡ turns_field self line }
    {
        match self {
            System::Lines525 => line == 4 || line == 266,
            System::Lines625 => line == 1 || line == 313,
        }
    }
}

// What refuses the numbers of a system and of a line: 1, 2.
#[tactic(auto, using(crate::proofs::Laws::named_none, crate::proofs::Laws::named_outside, crate::proofs::Laws::named_inside))]
pub fn named_refusal(system: u32, line: u32) -> Result<(), Refused>
    ensures { answered result ≡ named_refusal system line }
{
    let named = System::try_from(system)?;
    if !named.has_line(line) {
        return Err(Reason::NoLine.at(0));
    }
    Ok(())
}

// What refuses the numbers of a line that is to be written: 1, 2, and 2 for a fall line outside 10 to 20, which 625 ignores.
#[tactic(auto, using(refusal::proofs::Results::err_first, refusal::proofs::Results::ok_first), unfolding(crate::specs::Walk::written_refusal))]
pub fn written_refusal(system: u32, line: u32, fall: u32) -> Result<(), Refused>
    ensures { answered result ≡ written_refusal system line fall }
{
    named_refusal(system, line)?;
    if !system_of(system).is_fall(fall) {
        return Err(Reason::NoLine.at(0));
    }
    Ok(())
}
