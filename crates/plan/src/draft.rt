ghost use Rattle.std.specs.Prelude.{◌≡◌};

use plan_names::{Named, PortName, Text};
use plan_slots::Slots;
use std::marker::Model;
use tag::Time;

/// A federate as it is declared.
#[derive(Drop)]
pub struct Federate {
    pub name: Text,
    pub slots: Slots,
}

impl Named for Federate {
    ghost name_of = { λ f. f.name };

    fn name(&self) -> &Text {
        &self.name
    }
}

/// Federates, in their order. Contracts see the list of them.
#[derive(Drop)]
pub struct Federates {
    federates: Vec<Federate>,
}

impl Model for Federates {
    ghost use Rattle.std.specs.Prelude.{List};
    ghost use Rattle.plan.specs.declared.draft.Federate.{Federate};

    ghost Value = { List Federate };

    ghost view = { λ f. f.federates.items };
}

impl Federates {
    pub fn new(federates: Vec<Federate>) -> Federates
        ensures { result ≡ federates.items }
    {
        Federates { federates }
    }

    pub fn as_slice(&self) -> &[Federate]
        ensures { result.now ≡ self.now }
    {
        self.federates.as_slice()
    }
}

/// A connection as it is declared: `after` is None where it has no delay.
#[derive(Drop)]
pub struct ConnectionDraft {
    pub from: PortName,
    pub to: PortName,
    pub after: Option<Time>,
}

/// Connections as they are declared, in their order. Contracts see the list of them.
#[derive(Drop)]
pub struct Connections {
    connections: Vec<ConnectionDraft>,
}

impl Model for Connections {
    ghost use Rattle.std.specs.Prelude.{List};
    ghost use Rattle.plan.specs.declared.draft.ConnectionDraft.{ConnectionDraft};

    ghost Value = { List ConnectionDraft };

    ghost view = { λ c. c.connections.items };
}

impl Connections {
    pub fn new(connections: Vec<ConnectionDraft>) -> Connections
        ensures { result ≡ connections.items }
    {
        Connections { connections }
    }

    pub fn as_slice(&self) -> &[ConnectionDraft]
        ensures { result.now ≡ self.now }
    {
        self.connections.as_slice()
    }
}

/// A federation as it is declared, legal or not.
#[derive(Drop)]
pub struct Draft {
    pub stop: Time,
    pub federates: Federates,
    pub connections: Connections,
}
