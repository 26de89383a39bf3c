//! Who is there of those that are awaited.
ghost use Rattle.std.specs.Prelude.{◌≡◌};

/// How many of a coordinator's federates are there, as connected or told, and who is awaited.
#[derive(Clone, Copy, Debug, PartialEq, Eq)]
pub struct Awaited {
    pub present: u16,
    /// How many there are in all.
    pub federates: u16,
    /// The first that is awaited, by its number, if one is.
    pub first: Option<u16>,
    /// How many are awaited besides that one.
    pub more: u16,
}

impl Awaited {
    ghost use Rattle.std.specs.Prelude.{None};
    ghost use Rattle.wires_hosts.specs.Awaited as definition;

    /// Of no federate.
    pub fn nobody() -> Awaited
        ensures { result ≡ record { present = 0; federates = 0; first = None; more = 0 } }
    {
        Awaited {
            present: 0,
            federates: 0,
            first: None,
            more: 0,
        }
    }

    /// With one federate more, whose number is the next one, and which is there or isn't.
    pub fn with(self, is_there: bool) -> Awaited
        ensures { result ≡ definition.with_one self is_there }
    {
        let federates = self.federates.saturating_add(1);
        if is_there {
            return Awaited {
                present: self.present.saturating_add(1),
                federates,
                ..self
            };
        }
        match self.first {
            None => Awaited {
                federates,
                first: Some(self.federates),
                ..self
            },
            Some(_) => Awaited {
                federates,
                more: self.more.saturating_add(1),
                ..self
            },
        }
    }
}
