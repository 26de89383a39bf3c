ghost use Rattle.std.specs.Prelude.{◌≡◌, ◌∷◌, [], IfOk};

use node::Event;
use std::alloc::{AllocError, Global};
use std::marker::Model;
use std::sync::Arc;

/// Events that came together, oldest first. Whoever keeps some of them shares them.
#[derive(Debug, Drop)]
pub struct Batch {
    events: Arc<Vec<Event>>,
}

impl Model for Batch {
    ghost use Rattle.std.specs.Prelude.{List};
    ghost use Rattle.std.specs.Arc.{arc_value};
    ghost use Rattle.node.specs.declared.event.Event.{Event};

    ghost Value = { List Event };

    ghost view = { λ b. (arc_value b.events).items };
}

impl Batch {
    /// A batch of these events, without room for more.
    pub fn new(alloc: Global, events: &[Event]) -> Result<Batch, AllocError>
        ensures { IfOk result (λ batch. batch ≡ events.now) }
    {
        let events = Vec::from_slice(alloc, events)?;
        let events = Arc::new(alloc, events)?;
        Ok(Batch { events })
    }

    /// A batch of one event.
    pub fn one(alloc: Global, event: &Event) -> Result<Batch, AllocError>
        ensures { IfOk result (λ batch. batch ≡ event.now ∷ []) }
    {
        Batch::new(alloc, &[*event])
    }

    /// The same events, for one more who keeps them.
    pub fn try_clone(&self) -> Result<Batch, AllocError>
        ensures { IfOk result (λ batch. batch ≡ self.now) }
    {
        let events = Arc::try_clone(&self.events)?;
        Ok(Batch { events })
    }

    /// Its events.
    pub fn events(&self) -> &[Event]
        ensures { result.now ≡ self.now }
    {
        &self.events
    }
}
