use crate::text::Text;
use std::fmt;

/// A port of a federate, both by name.
#[derive(Clone, Debug, Drop)]
pub struct PortName {
    pub federate: Text,
    pub port: Text,
}

impl fmt::Display for PortName {
    ghost use Rattle.std.specs.Prelude.{Some};
    ghost use Rattle.plan_names.specs.Ports.{printed_port};

    ghost output = { λ port. Some (printed_port port) };

    fn fmt<W: fmt::Write>(&self, f: &mut fmt::Formatter<W>) -> fmt::Result {
        let federate = self.federate.as_str();
        let port = self.port.as_str();
        write!(f, "{federate}.{port}")
    }
}
