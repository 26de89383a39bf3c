use std::marker::Model;
use world_stations::Step;

/// A step, and the line of the schedule that it was made for.
#[derive(Clone, Copy, Debug, PartialEq, Eq)]
pub struct MadeStep {
    line: usize,
    step: Step,
}

impl Model for MadeStep {
    ghost use Rattle.fedrun_replay.specs.Play.{Made};

    ghost Value = { Made };

    ghost view = { λ m. record { line = m.line; step = m.step } };

    ghost inverse = { λ m. record { line = m.line; step = m.step } };
}

impl MadeStep {
    ghost use Rattle.std.specs.Prelude.{◌≡◌};

    pub fn new(line: usize, step: Step) -> MadeStep
        ensures { result ≡ record { line = line; step = step } }
    {
        MadeStep { line, step }
    }

    pub fn line(self) -> usize
        ensures { result ≡ self.line }
    {
        self.line
    }

    pub fn step(self) -> Step
        ensures { result ≡ self.step }
    {
        self.step
    }
}
