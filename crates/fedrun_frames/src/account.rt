use crate::brought::Brought;
use crate::counts::LinkCounts;
use reactor::Rows;
use std::marker::Model;
use world_stations::{Outcome, Step};

/// What came of a step.
#[derive(Drop)]
pub struct Account {
    /// The line that it was made for.
    pub(crate) line: usize,
    pub(crate) step: Step,
    pub(crate) brought: Brought,
    pub(crate) outcome: Outcome,
    /// The row that it made, if it made one.
    pub(crate) row: Rows,
    /// How many frames had been sent over each link before it, by federate.
    pub(crate) before: Vec<LinkCounts>,
}

impl Model for Account {
    ghost use Rattle.fedrun_frames.specs.Accounts.{Account as AccountOf};

    ghost Value = { AccountOf };

    ghost view = { λ a. record {
      line = a.line;
      step = a.step;
      brought = a.brought;
      outcome = a.outcome;
      row = a.row;
      before = a.before.items;
    } };
}

impl Account {
    ghost use Rattle.std.specs.Prelude.{◌≡◌};

    /// The line that it was made for.
    pub fn line(&self) -> usize
        ensures { result ≡ self.now.line }
    {
        self.line
    }

    pub fn step(&self) -> Step
        ensures { result ≡ self.now.step }
    {
        self.step
    }

    pub fn brought(&self) -> Brought
        ensures { result ≡ self.now.brought }
    {
        self.brought
    }

    pub fn outcome(&self) -> Outcome
        ensures { result ≡ self.now.outcome }
    {
        self.outcome
    }

    /// The row that it made, if it made one.
    pub fn row(&self) -> &Rows
        ensures { result.now ≡ self.now.row }
    {
        &self.row
    }

    /// How many frames had been sent over each link before it, by federate.
    pub fn before(&self) -> &[LinkCounts]
        ensures { result.now ≡ self.now.before }
    {
        self.before.as_slice()
    }
}
