ghost use Rattle.std.specs.Prelude.{◌≡◌};

use reactor_program::{Entries, Entry};
use std::marker::Model;
use tag::Tag;

/// One turn of one federate: what was present at its slots, and which outputs it set.
#[derive(Drop)]
pub struct Row {
    federate: usize,
    tag: Tag,
    inputs: Entries,
    outputs: Entries,
}

impl Model for Row {
    ghost use Rattle.network.specs.Undivided.{Row as RowOf};

    ghost Value = { RowOf };

    ghost view = { λ r. record { reactor = r.federate; tag = r.tag; inputs = r.inputs; outputs = r.outputs } };
}

impl Row {
    pub fn new(federate: usize, tag: Tag, inputs: Entries, outputs: Entries) -> Row
        ensures { result ≡ record { reactor = federate; tag = tag; inputs = inputs; outputs = outputs } }
    {
        Row {
            federate,
            tag,
            inputs,
            outputs,
        }
    }

    /// The federate, by number.
    pub fn federate(&self) -> usize
        ensures { result ≡ self.now.reactor }
    {
        self.federate
    }

    pub fn tag(&self) -> Tag
        ensures { result ≡ self.now.tag }
    {
        self.tag
    }

    /// By slot.
    pub fn inputs(&self) -> &[Entry]
        ensures { result.now ≡ self.now.inputs }
    {
        self.inputs.as_slice()
    }

    /// By output port.
    pub fn outputs(&self) -> &[Entry]
        ensures { result.now ≡ self.now.outputs }
    {
        self.outputs.as_slice()
    }
}
