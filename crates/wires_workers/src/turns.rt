ghost use Rattle.std.specs.Prelude.{◌≡◌};
ghost use Rattle.wires_workers.specs.RetryState.{turned};

use crate::retry_state::{Next, RetryState};

/// How many turns are made while a desk's lock is held, at most.
pub(crate) const TURNS_AT_ONCE: u32 = 256;

/// Turns that were made at once.
#[derive(Clone, Copy, Debug, PartialEq, Eq)]
pub struct Turns {
    /// How many.
    pub made: u32,
    /// Whether the runner waits after them: the last of them did nothing, though more turns are left.
    pub is_idle: bool,
}

impl Turns {
    /// No turn was made. Whoever asks for it says whether the runner waits then.
    pub(crate) fn none(is_idle: bool) -> Turns
        ensures { result.made ≡ 0 }
    {
        Turns { made: 0, is_idle }
    }

    /// Takes them off the turns that are left. They aren't idle where none is left: the runner is at its end.
    pub(crate) fn counted(self, state: &mut RetryState) -> Turns
        ensures made { result.made ≡ self.made }
        ensures state { state.new ≡ turned state.old self.made }
    {
        let Turns { made, is_idle } = self;
        let next = state.after_turns(made, is_idle);
        Turns {
            made,
            is_idle: next == Next::Wait,
        }
    }
}
