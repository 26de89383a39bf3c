//! Rows in flat room: the entries of all rows one after the other, and of each row where its own stand.
ghost use Rattle.std.specs.Prelude.{◌≡◌, ◌+◌, ◌<◌, ◌≤◌, ◌++◌, ◌∷◌, [], length, get_or, OnOk, OnErr};
ghost use Rattle.std.specs.Vec.{vec_len, vec_capacity};

use crate::memory::Memory;
use reactor_program::Entry;
use std::alloc::Global;
use std::marker::Model;
use tag::Tag;

/// Where a row's entries stand: its inputs from the first, then its outputs.
#[derive(Clone, Copy, Debug)]
pub struct Span {
    pub federate: usize,
    pub tag: Tag,
    pub inputs: usize,
    pub outputs: usize,
    pub end: usize,
}

/// Rows, oldest first. One more asks for memory only where the room of all of them grows. Contracts see the list of
/// them.
#[derive(Debug, Drop)]
pub struct Rows {
    entries: Vec<Entry>,
    spans: Vec<Span>,
}

impl Model for Rows {
    ghost use Rattle.std.specs.Prelude.{List, map, All, length};
    ghost use Rattle.network.specs.Undivided.{Row as RowOf};
    ghost use Rattle.reactor.specs.Rows.{row_in, IsSpanIn};

    ghost Value = { List RowOf };

    ghost view = { λ r. map (row_in r.entries.items) r.spans.items };

    ghost invariant = { λ r. All (IsSpanIn (length r.entries.items)) r.spans.items };
}

impl Rows {
    /// None, with no room yet.
    pub fn new(alloc: Global) -> Rows
        ensures { result ≡ [] }
    {
        Rows {
            entries: Vec::new(alloc),
            spans: Vec::new(alloc),
        }
    }

    pub fn len(&self) -> usize
        ensures { result ≡ length self.now }
    {
        self.spans.len()
    }

    /// One more. After `Memory` the rows are as they were.
    #[inline(always)]
    pub fn push(
        &mut self,
        federate: usize,
        tag: Tag,
        inputs: &[Entry],
        outputs: &[Entry],
    ) -> Result<(), Memory>
        ensures ok { OnOk result (self.new ≡ self.old
            ++ record { reactor = federate; tag = tag; inputs = inputs.now; outputs = outputs.now } ∷ []) }
        ensures err { OnErr result (self.new ≡ self.old) }
    {
        // Room for all of it first, so that nothing has to be taken back.
        let Some(count) = inputs.len().checked_add(outputs.len()) else {
            return Err(Memory);
        };
        self.entries.reserve(count)?;
        self.spans.reserve(1)?;
        let first = self.entries.len();
        append(&mut self.entries, inputs);
        let middle = self.entries.len();
        append(&mut self.entries, outputs);
        self.spans.push_reserved(Span {
            federate,
            tag,
            inputs: first,
            outputs: middle,
            end: self.entries.len(),
        });
        Ok(())
    }

    /// The row at a place.
    pub fn row(&self, place: usize) -> RowView<'_>
        requires { place < length self.now }
        ensures { result ≡ get_or self.now place result }
    {
        let span = self.spans[place];
        RowView {
            federate: span.federate,
            tag: span.tag,
            inputs: &self.entries[span.inputs..span.outputs],
            outputs: &self.entries[span.outputs..span.end],
        }
    }

    /// Lets go of all rows, and keeps their room. It takes no memory.
    pub fn clear(&mut self)
        ensures { self.new ≡ [] }
    {
        self.spans.clear();
        self.entries.clear();
    }
}

// Adds entries, for which there is room.
fn append(to: &mut Vec<Entry>, entries: &[Entry])
    requires { vec_len to.old + length entries.now ≤ vec_capacity to.old }
    ensures items { to.new.items ≡ to.old.items ++ entries.now }
    ensures len { vec_len to.new ≡ vec_len to.old + length entries.now }
    ensures capacity { vec_capacity to.new ≡ vec_capacity to.old }
{
    for entry in entries {
        to.push_reserved(*entry);
    }
}

/// A row among others.
#[derive(Drop)]
pub struct RowView<'r> {
    federate: usize,
    tag: Tag,
    inputs: &'r [Entry],
    outputs: &'r [Entry],
}

impl<'r> Model for RowView<'r> {
    ghost use Rattle.network.specs.Undivided.{Row as RowOf};

    ghost Value = { RowOf };

    ghost view = { λ r. record { reactor = r.federate; tag = r.tag; inputs = r.inputs.now; outputs = r.outputs.now } };
}

impl<'r> RowView<'r> {
    /// The federate, by number.
    pub fn federate(&self) -> usize
        ensures { result ≡ self.now.reactor }
    {
        self.federate
    }

    pub fn tag(&self) -> Tag
        ensures { result ≡ self.now.tag }
    {
        self.tag
    }

    /// By slot.
    pub fn inputs(&self) -> &'r [Entry]
        ensures { result.now ≡ self.now.inputs }
    {
        self.inputs
    }

    /// By output port.
    pub fn outputs(&self) -> &'r [Entry]
        ensures { result.now ≡ self.now.outputs }
    {
        self.outputs
    }
}
