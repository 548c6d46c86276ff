// One turn of a filter after another, to the end of its input or the first refusal.
ghost use Rattle.std.specs.Prelude.{◌≡◌};

use host::Host;

// How far a filter is.
pub(crate) trait Turning: Copy {
    // Shows it, where progress is shown, at some of the turns that are left.
    fn show(self, host: &mut Host, is_shown: bool, turns: u64);

    // The same that ended so.
    final fn ended<S>(self, how: S) -> Ended<Self, S>
        ensures { result ≡ record { at = self; how = how } }
    {
        Ended { at: self, how }
    }
}

// A filter that ended, and how.
#[derive(Clone, Copy)]
pub(crate) struct Ended<T, S> {
    pub(crate) at: T,
    pub(crate) how: S,
}

// What a turn comes to: the filter goes on, or it ended.
pub(crate) type Turn<T, S> = Result<T, Ended<T, S>>;

// Takes turns until one ends. An input that used the turns up would leave it open.
pub(crate) fn take_turns<T: Turning, S: Copy, F: FnMut(&mut Host, T) -> Turn<T, S>>(
    host: &mut Host,
    first: T,
    mut turn: F,
) -> Turn<T, S>
    requires { F.IsAlwaysCallable turn }
{
    let is_shown = console::is_shown(host);
    let mut at = first;
    for turns in (0..u64::MAX).rev() {
        match turn(host, at) {
            Ok(next) => {
                next.show(host, is_shown, turns);
                at = next;
            }
            Err(ended) => {
                ended.at.show(host, is_shown, 0);
                console::end_turns(host, is_shown);
                return Err(ended);
            }
        }
    }
    console::end_turns(host, is_shown);
    Ok(at)
}
