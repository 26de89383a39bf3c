ghost use Rattle.std.specs.Prelude.{◌≡◌};
ghost use Rattle.network.specs.Event.{value_at};

use std::marker::Model;

/// A value that is present at a slot, or set at an output port, by number.
#[derive(Clone, Copy, Debug, PartialEq, Eq)]
pub struct Entry {
    place: usize,
    value: i64,
}

impl Model for Entry {
    ghost use Rattle.network.specs.Event.{Entry as EntryOf};

    ghost Value = { EntryOf };

    ghost view = { λ e. record { place = e.place; value = e.value } };

    ghost inverse = { λ e. record { place = e.place; value = e.value } };
}

impl Entry {
    pub fn new(place: usize, value: i64) -> Entry
        ensures { result ≡ record { place = place; value = value } }
    {
        Entry { place, value }
    }

    /// The slot or the output port.
    pub fn place(self) -> usize
        ensures { result ≡ self.place }
    {
        self.place
    }

    pub fn value(self) -> i64
        ensures { result ≡ self.value }
    {
        self.value
    }
}

/// Entries, in their order. Contracts see the list of them.
#[derive(Drop)]
pub struct Entries {
    entries: Vec<Entry>,
}

impl Model for Entries {
    ghost use Rattle.std.specs.Prelude.{List};
    ghost use Rattle.network.specs.Event.{Entry as EntryOf};

    ghost Value = { List EntryOf };

    ghost view = { λ e. e.entries.items };
}

impl Entries {
    pub fn new(entries: Vec<Entry>) -> Entries
        ensures { result ≡ entries.items }
    {
        Entries { entries }
    }

    pub fn as_slice(&self) -> &[Entry]
        ensures { result.now ≡ self.now }
    {
        self.entries.as_slice()
    }
}

/// The value of the first entry at a place.
pub fn value_at(entries: &[Entry], place: usize) -> Option<i64>
    ensures { result ≡ value_at entries.now place }
{
    entries
        .iter()
        .find(|entry| entry.place() == place)
        .map(|entry| entry.value())
}
