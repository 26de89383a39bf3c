ghost use Rattle.std.specs.Prelude.{◌≡◌, []};

use node_journal::Blocks;
use std::alloc::Global;
use std::marker::Model;

/// The events that one worker added to a journal, in that order. Each is in a slip, with its place in the journal.
#[derive(Drop)]
pub struct Share {
    pub(crate) slips: Blocks,
}

impl Model for Share {
    ghost use Rattle.std.specs.Prelude.{List};
    ghost use Rattle.node_journal.specs.declared.slip.Slip.{Slip};

    ghost Value = { List Slip };

    ghost view = { λ s. s.slips };
}

impl Share {
    /// A share with no slip.
    pub fn new(alloc: Global) -> Share
        ensures { result ≡ [] }
    {
        Share {
            slips: Blocks::new(alloc),
        }
    }

    /// Its slips.
    pub fn slips(&self) -> &Blocks
        ensures { result.now ≡ self.now }
    {
        &self.slips
    }
}
