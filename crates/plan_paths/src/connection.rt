ghost use Rattle.std.specs.Prelude.{◌≡◌};

use std::marker::Model;
use tag::Delay;

/// A connection by numbers: from an output port of one federate to an input's slot of another, or of the same.
#[derive(Clone, Copy, PartialEq, Eq)]
pub struct Connection {
    source: usize,
    port: usize,
    target: usize,
    slot: usize,
    delay: Delay,
}

impl Model for Connection {
    ghost use Rattle.network.specs.Connection.{Connection as ConnectionOf};

    ghost Value = { ConnectionOf };

    ghost view = { λ c. record {
      source = c.source;
      port = c.port;
      target = c.target;
      slot = c.slot;
      delay = c.delay;
    } };

    ghost inverse = { λ c. record {
      source = c.source;
      port = c.port;
      target = c.target;
      slot = c.slot;
      delay = c.delay;
    } };
}

impl Connection {
    pub fn new(source: usize, port: usize, target: usize, slot: usize, delay: Delay) -> Connection
        ensures { result ≡ record { source = source; port = port; target = target; slot = slot; delay = delay } }
    {
        Connection {
            source,
            port,
            target,
            slot,
            delay,
        }
    }

    /// The federate that sends.
    pub fn source(self) -> usize
        ensures { result ≡ self.source }
    {
        self.source
    }

    /// Its output port.
    pub fn port(self) -> usize
        ensures { result ≡ self.port }
    {
        self.port
    }

    /// The federate that receives.
    pub fn target(self) -> usize
        ensures { result ≡ self.target }
    {
        self.target
    }

    /// Its slot.
    pub fn slot(self) -> usize
        ensures { result ≡ self.slot }
    {
        self.slot
    }

    pub fn delay(self) -> Delay
        ensures { result ≡ self.delay }
    {
        self.delay
    }
}
