// What is due in a line: its system, its F and V, and its fill.
ghost use Rattle.std.specs.Prelude.{◌≡◌};
ghost use Rattle.system.specs.Due.{due_with, due_of, flags_of};

use crate::System;
use words::FillWords;

// What is due in a line. With V = 1 its active part is fill.
#[derive(Clone, Copy)]
pub struct Due {
    pub system: System,
    pub f: bool,
    pub v: bool,
    pub fill: FillWords,
}

impl Due {
    // What is due in the line with this number, of this V.
    #[tactic(auto, unfolding(crate::specs::Due::due_with))]
    pub(crate) fn with(system: System, line: u32, v: bool) -> Due
        ensures { result ≡ due_with system line v }
    {
        Due {
            system,
            f: system.f(line),
            v,
            fill: FillWords { even: 512, odd: 64 },
        }
    }

    // What is due in the line with this number where V of the first field falls at this line, for all who write.
    #[tactic(auto, unfolding(crate::specs::Due::due_of))]
    pub fn of(system: System, line: u32, fall: u32) -> Due
        ensures { result ≡ due_of system line fall }
    {
        Due::with(system, line, system.v_written(line, fall))
    }

    // F, V, H of the line's EAV, where H is 1, or of its SAV.
    #[tactic(auto, unfolding(crate::specs::Due::flags_of))]
    pub fn flags(self, h: bool) -> u32
        ensures { result ≡ flags_of self h }
    {
        4 * u32::from(self.f) + 2 * u32::from(self.v) + u32::from(h)
    }
}
