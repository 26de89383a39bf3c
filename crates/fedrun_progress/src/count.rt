use std::fmt;
use tag::{Tag, Time};

/// What was told so far.
#[derive(Clone, Copy)]
pub(crate) struct Count {
    pub stop: Option<Time>,
    pub rows: usize,
    pub latest: Option<Time>,
    pub steps: usize,
}

impl Count {
    /// Nothing was told.
    pub(crate) fn new() -> Count {
        Count {
            stop: None,
            rows: 0,
            latest: None,
            steps: 0,
        }
    }

    /// This many more rows.
    pub(crate) fn add_rows(&mut self, more: usize, latest: Tag) {
        self.rows = self.rows.saturating_add(more);
        self.latest = Time::new(latest.time());
    }
}

impl fmt::Display for Count {
    fn fmt<W: fmt::Write>(&self, f: &mut fmt::Formatter<W>) -> fmt::Result {
        match self.stop {
            Some(stop) => write_rows(f, self.rows, self.latest, stop),
            None => write!(f, "{} steps", self.steps),
        }
    }
}

// This many rows, the last at this time, of a program that goes on until a time.
fn write_rows<W: fmt::Write>(
    f: &mut fmt::Formatter<W>,
    rows: usize,
    latest: Option<Time>,
    stop: Time,
) -> fmt::Result {
    match latest {
        Some(latest) => write!(f, "{rows} rows, at {latest} of {stop}"),
        None => write!(f, "{rows} rows of {stop}"),
    }
}
