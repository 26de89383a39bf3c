use std::fmt;

/// Why a log isn't opened, or doesn't keep what it was given. It is printed as what can't be done; whoever prints it
/// says of which file.
#[derive(Clone, Copy, Debug, PartialEq, Eq)]
pub enum KeepFault {
    /// The file can't be opened, and not be made, as in a folder that isn't there or may not be changed.
    CannotOpen,
    /// Another process has locked the file: it keeps its own log there.
    Taken,
    /// The file can't be locked, as in a file system without locks.
    CannotLock,
    /// The file can't be read, or there is no memory for its bytes.
    CannotRead,
    /// The file can't be cut.
    CannotCut,
    /// The disk doesn't take all bytes: it may be full.
    CannotAppend,
    /// The disk doesn't say that it keeps the bytes.
    CannotSync,
    /// The disk doesn't say that it keeps the file's name.
    CannotSyncFolder,
    /// An earlier call has failed, and so nothing was asked of the disk. The log is opened again by another process.
    FailedBefore,
}

impl fmt::Display for KeepFault {
    ghost use Rattle.std.specs.Prelude.{Some};
    ghost use Rattle.files_keeping.specs.Fault.{text_of};

    ghost output = { λ fault. Some (text_of fault) };

    fn fmt<W: fmt::Write>(&self, f: &mut fmt::Formatter<W>) -> fmt::Result {
        let text = match self {
            KeepFault::CannotOpen => "cannot open",
            KeepFault::Taken => "taken",
            KeepFault::CannotLock => "cannot lock",
            KeepFault::CannotRead => "cannot read",
            KeepFault::CannotCut => "cannot cut",
            KeepFault::CannotAppend => "cannot append",
            KeepFault::CannotSync => "cannot sync",
            KeepFault::CannotSyncFolder => "cannot sync the folder",
            KeepFault::FailedBefore => "failed before",
        };
        write!(f, "{text}")
    }
}

impl std::error::Error for KeepFault {}
