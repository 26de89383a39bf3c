//! What is shown of a node: lines of what happens, and below them one for each federate, which is drawn again.
use crate::picture::{Wiped, picture_of};
use crate::showing::{print_happened, print_left_out};
use fedrun_words::print_text;
use plan_names::Text;
use std::alloc::Global;
use std::io::Write;
use wires_hosts::{Happened, Looked, Standing, Told};

/// What is shown of a node.
#[derive(Clone, Copy, Debug, PartialEq, Eq)]
pub struct View {
    /// A line for each thing that happens.
    pub lines: bool,
    /// Where each federate stands.
    pub rows: bool,
}

impl View {
    /// Whether nothing is shown.
    pub fn is_empty(self) -> bool {
        !self.lines && !self.rows
    }
}

/// What is shown of a node so far.
#[derive(Drop)]
pub struct Screen {
    alloc: Global,
    view: View,
    names: Vec<Text>,
    // Where federates stand that were looked at since the last picture was drawn.
    rows: Vec<Standing>,
    // How many lines at the terminal's end are drawn again.
    drawn: usize,
    // Whether none is drawn any more: the node writes how it ended.
    is_over: bool,
}

impl Screen {
    /// Nothing.
    pub fn new(alloc: Global, view: View) -> Screen {
        Screen {
            alloc,
            view,
            names: Vec::new(alloc),
            rows: Vec::new(alloc),
            drawn: 0,
            is_over: false,
        }
    }

    /// Shows what is told, where it is in view. What can't be written is left out, and so is a federate for which there
    /// is no memory.
    pub fn take<E: Write>(&mut self, told: Told, err: &mut E) {
        match told {
            Told::Federates(names) => self.names = names,
            Told::Happened(happened) => self.happen(&happened, err),
            Told::Stands(standing) => self.stand(standing),
            Told::Looked(looked) => self.draw(looked, err),
            Told::Wipe(until) => {
                self.end_looks(err);
                // Whoever waits for that goes on.
                drop(until);
            }
        }
    }

    /// Wipes what would be drawn again, and draws no look any more.
    pub fn end_looks<E: Write>(&mut self, err: &mut E) {
        self.wipe(err);
        self.is_over = true;
    }

    /// Nothing more is told, and so much was left out of which no line says so.
    pub fn end<E: Write>(&mut self, left_out: u64, err: &mut E) {
        self.end_looks(err);
        if self.view.lines {
            let _is_written = print_left_out(left_out, err);
        }
    }

    /// Wipes what would be drawn again.
    pub fn wipe<E: Write>(&mut self, err: &mut E) {
        let _is_written = print_text(err, &Wiped(self.drawn));
        self.drawn = 0;
    }

    // Something happened: its line stands above those that are drawn again.
    fn happen<E: Write>(&mut self, happened: &Happened, err: &mut E) {
        if self.view.lines {
            self.wipe(err);
            let _is_written = print_happened(self.names.as_slice(), happened, err);
        }
    }

    // A federate stands there. One that isn't behind those before begins another look, of which the end of the one before
    // was left out.
    fn stand(&mut self, standing: Standing) {
        let is_behind = match self.rows.last() {
            Some(last) => last.federate < standing.federate,
            None => true,
        };
        if !is_behind {
            self.rows.clear();
        }
        let _ = self.rows.push(standing);
    }

    // Draws the federates' lines, in place of those that are there, and how many have none.
    fn draw<E: Write>(&mut self, looked: Looked, err: &mut E) {
        if self.view.rows && !self.is_over {
            let picture = picture_of(
                self.alloc,
                self.drawn,
                self.names.as_slice(),
                &looked.stop,
                self.rows.as_slice(),
                looked.more,
            );
            if let Some(picture) = picture {
                let _is_written = err.write_all(picture.as_slice());
                let more = if looked.more > 0 { 1 } else { 0 };
                self.drawn = self.rows.len().saturating_add(more);
            }
        }
        self.rows.clear();
    }
}
