// What is wrong with one word of a line, by what is due where it stands.
ghost use Rattle.std.specs.Prelude.{◌≡◌};
ghost use Rattle.refusal.specs.Reasons.{fault_number};
ghost use Rattle.line.specs.Fault.{fault_where};

use line::{LEAST_ONES, MOST_ZEROS, What};
use refusal::Reason;
use words::{MOST_WORD, reserved};

// What is wrong with a word where this is due: 5 comes before all others.
pub(crate) fn fault(due: What, word: u16) -> Option<Reason>
    ensures { fault_number result ≡ fault_where due word }
{
    if MOST_WORD < word {
        return Some(Reason::Over);
    }
    match due {
        What::Ones => (word < LEAST_ONES).then_some(Reason::NoCode),
        What::Zeros => (MOST_ZEROS < word).then_some(Reason::NoCode),
        What::Fourth { fvh } => timing::fault(word, fvh),
        What::Fill { word: fill } => (word != fill).then_some(Reason::NoFill),
        What::Sample => reserved(word).then_some(Reason::Reserved),
    }
}
