ghost use Rattle.std.specs.Prelude.{◌≡◌};
ghost use Rattle.std.specs.IoError.{error_kind};
ghost use Rattle.fedrun_hosts.specs.declared.listen_fault.ListenFault.TheVariants.{InUse, NotHere, NotAllowed};

use std::io;
use std::io::ErrorKind;

/// Why nothing can listen at an address.
#[derive(Clone, Copy, Debug, PartialEq, Eq)]
pub enum ListenFault {
    /// Somebody listens there already.
    InUse,
    /// It is no address of this machine.
    NotHere,
    /// Whoever runs the node may not listen there, as at a port below 1024.
    NotAllowed,
    /// For anything else.
    Other,
}

impl ListenFault {
    /// The fault where the machine has this error.
    pub(crate) fn of(error: &io::Error) -> ListenFault
        ensures in_use { error_kind error.now ≡ ErrorKind.AddrInUse → result ≡ InUse }
        ensures not_here { error_kind error.now ≡ ErrorKind.AddrNotAvailable → result ≡ NotHere }
        ensures not_allowed { error_kind error.now ≡ ErrorKind.PermissionDenied → result ≡ NotAllowed }
    {
        let kind = error.kind();
        if kind == ErrorKind::AddrInUse {
            ListenFault::InUse
        } else if kind == ErrorKind::AddrNotAvailable {
            ListenFault::NotHere
        } else if kind == ErrorKind::PermissionDenied {
            ListenFault::NotAllowed
        } else {
            ListenFault::Other
        }
    }
}
