ghost use Rattle.std.specs.Prelude.{◌≡◌, ◌≢◌};
ghost use Rattle.std.specs.IoError.{error_kind};
ghost use Rattle.wires_hosts.specs.declared.unreached.Unreached.TheVariants.{Refused, TimeOver, NoWay, Other};

use std::io;
use std::io::ErrorKind;
use std::net::SocketAddr;

/// Why there is no connection to an address.
#[derive(Clone, Copy, Debug, PartialEq, Eq)]
pub enum Unreached {
    /// The system finds no address by the host's name.
    NoAddress,
    /// The machine is there and refuses: nobody listens at that port.
    Refused,
    /// Nothing was answered in time.
    TimeOver,
    /// The system or a machine on the way knows no way there.
    NoWay,
    /// For anything else.
    Other,
}

/// An attempt to connect to an address, or to a host's name, that came to no connection.
#[derive(Clone, Copy, Debug, PartialEq, Eq)]
pub struct Missed {
    pub why: Unreached,
    /// The last address of the name that was tried, if one was.
    pub tried: Option<SocketAddr>,
}

impl Unreached {
    /// Why, where the machine has this error.
    pub(crate) fn of(error: &io::Error) -> Unreached
        ensures refused { error_kind error.now ≡ ErrorKind.ConnectionRefused → result ≡ Refused }
        ensures time_over { error_kind error.now ≡ ErrorKind.TimedOut → result ≡ TimeOver }
        ensures no_host { error_kind error.now ≡ ErrorKind.HostUnreachable → result ≡ NoWay }
        ensures no_network { error_kind error.now ≡ ErrorKind.NetworkUnreachable → result ≡ NoWay }
        ensures other { error_kind error.now ≢ ErrorKind.ConnectionRefused → error_kind error.now ≢ ErrorKind.TimedOut
            → error_kind error.now ≢ ErrorKind.HostUnreachable → error_kind error.now ≢ ErrorKind.NetworkUnreachable
            → result ≡ Other }
    {
        match error.kind() {
            ErrorKind::ConnectionRefused => Unreached::Refused,
            ErrorKind::TimedOut => Unreached::TimeOver,
            ErrorKind::HostUnreachable | ErrorKind::NetworkUnreachable => Unreached::NoWay,
            _ => Unreached::Other,
        }
    }
}
