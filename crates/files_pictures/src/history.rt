//! What is drawn of a schedule: its steps, the frames that they sent, and what became of these.
ghost use Rattle.std.specs.Prelude.{◌≡◌, [], ◌∷◌, ◌++◌, OnOk};

use crate::shapes::Ink;
use std::alloc::{AllocError, Global};

/// A step.
#[derive(Drop)]
pub struct Moment {
    /// The line of the schedule that it was made for.
    pub line: usize,
    /// What is written beside it; it is red where the step was refused.
    pub text: String,
    pub ink: Ink,
    /// Whether the picture has room for it: what wasn't asked for by name and changed nothing has none.
    pub is_shown: bool,
    /// The federate that it makes forget.
    pub forgets: Option<usize>,
}

/// A frame that was sent, between a federate and the coordinator.
#[derive(Drop)]
pub struct Sending {
    pub federate: usize,
    /// To the coordinator, and not from there.
    pub is_up: bool,
    /// Which frame of its direction it is, counted from 1.
    pub number: usize,
    /// The step that sent it; None where that is before those that are drawn.
    pub step: Option<usize>,
    pub ink: Ink,
    pub text: String,
    /// Whether it doesn't come in what is drawn, but after it.
    pub is_late: bool,
}

/// A frame that came.
#[derive(Clone, Copy, Debug, PartialEq, Eq)]
pub struct Arrival {
    /// Its place among all frames.
    pub frame: usize,
    /// The step that brought it.
    pub step: usize,
    /// The number by which it was refused.
    pub refused: Option<u16>,
    /// Whether it had come before.
    pub is_again: bool,
}

/// A row that a federate added.
#[derive(Drop)]
pub struct RowMark {
    pub federate: usize,
    pub step: usize,
    pub text: String,
    /// The tag that begins with it: its own, where no row before has that or a later one.
    pub begins: Option<String>,
}

/// All that is drawn of a schedule.
#[derive(Drop)]
pub struct History {
    /// Of the federates.
    pub names: Vec<String>,
    /// How many steps stand before those that are drawn.
    pub gone: usize,
    pub steps: Vec<Moment>,
    pub frames: Vec<Sending>,
    pub arrivals: Vec<Arrival>,
    pub rows: Vec<RowMark>,
}

impl History {
    /// Nothing yet.
    pub fn new(alloc: Global) -> History
        ensures names { result.names.items ≡ [] }
        ensures steps { result.steps.items ≡ [] }
        ensures frames { result.frames.items ≡ [] }
        ensures arrivals { result.arrivals.items ≡ [] }
        ensures rows { result.rows.items ≡ [] }
    {
        History {
            names: Vec::new(alloc),
            gone: 0,
            steps: Vec::new(alloc),
            frames: Vec::new(alloc),
            arrivals: Vec::new(alloc),
            rows: Vec::new(alloc),
        }
    }

    pub fn add_step(&mut self, moment: Moment) -> Result<(), AllocError>
        ensures { OnOk result (self.new.steps.items ≡ self.old.steps.items ++ moment ∷ []) }
    {
        self.steps.push(moment)?;
        Ok(())
    }

    pub fn add_frame(&mut self, frame: Sending) -> Result<(), AllocError>
        ensures added { OnOk result (self.new.frames.items ≡ self.old.frames.items ++ frame ∷ []) }
        ensures steps { self.new.steps ≡ self.old.steps }
    {
        self.frames.push(frame)?;
        Ok(())
    }

    /// The frame at a place comes after what is drawn.
    pub fn set_late(&mut self, place: usize) -> Result<(), AllocError>
        ensures { self.new.steps ≡ self.old.steps }
    {
        if let Some(frame) = self.frames.get_mut(place) {
            if !frame.is_late {
                frame.is_late = true;
                frame.text.push_str(" ...")?;
            }
        }
        Ok(())
    }

    pub fn add_arrival(&mut self, arrival: Arrival) -> Result<(), AllocError>
        ensures added { OnOk result (self.new.arrivals.items ≡ self.old.arrivals.items ++ arrival ∷ []) }
        ensures steps { self.new.steps ≡ self.old.steps }
    {
        self.arrivals.push(arrival)?;
        Ok(())
    }

    pub fn add_row(&mut self, row: RowMark) -> Result<(), AllocError>
        ensures added { OnOk result (self.new.rows.items ≡ self.old.rows.items ++ row ∷ []) }
        ensures steps { self.new.steps ≡ self.old.steps }
    {
        self.rows.push(row)?;
        Ok(())
    }
}
