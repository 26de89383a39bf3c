ghost use Rattle.std.specs.Prelude.{◌≡◌};

/// What came of turns whose steps were made at once.
#[derive(Clone, Copy, Debug, PartialEq, Eq)]
pub struct TurnSteps {
    /// How many events' steps were made: an announcement and then an advance for each turn, of the last one perhaps the
    /// announcement alone.
    pub events: usize,
    /// Whether the last turn did nothing.
    pub is_idle: bool,
}

impl TurnSteps {
    /// No step.
    pub(crate) fn none() -> TurnSteps
        ensures { result.events ≡ 0 }
    {
        TurnSteps {
            events: 0,
            is_idle: false,
        }
    }
}
