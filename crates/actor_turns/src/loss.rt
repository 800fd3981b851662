//! Calls that are lost.

ghost use Rattle.std.specs.Prelude.{◌≡◌};
ghost use Rattle.actor_turns.specs.Fates.{fate_by, fate_of};

/// What becomes of a call: its answer is told, or it is lost before its effect or after it.
#[derive(Clone, Copy, Debug, PartialEq, Eq)]
pub enum Fate {
    Told,
    LostBefore,
    LostAfter,
}

/// The number of a call, from 1, that is lost: after its effect, or before it.
#[derive(Clone, Copy, Debug, PartialEq, Eq)]
pub struct Loss {
    pub call: u64,
    pub after: bool,
}

/// What becomes of the call of this number.
pub fn fate_of(losses: &[Loss], number: u64) -> Fate
    ensures { result ≡ fate_of losses.now number }
{
    for loss in losses {
        if loss.call == number {
            return fate_by(loss.after);
        }
    }
    Fate::Told
}

fn fate_by(after: bool) -> Fate
    ensures { result ≡ fate_by after }
{
    if after {
        Fate::LostAfter
    } else {
        Fate::LostBefore
    }
}
