use std::fmt;

/// Why a file isn't saved, or isn't looked for. It is printed as what can't be done; whoever prints it says of which
/// file.
#[derive(Clone, Copy, Debug, PartialEq, Eq)]
pub enum SaveFault {
    /// There is a file of this name already, which is left as it is.
    Exists,
    /// Whether there is a file can't be found out, as in a folder that may not be looked into.
    CannotLook,
    /// The temporary file can't be made, as in a folder that isn't there or may not be changed.
    CannotCreate,
    /// The disk doesn't take all bytes: it may be full.
    CannotWrite,
    /// The disk doesn't say that it keeps the bytes.
    CannotSync,
    /// The temporary file doesn't get the name for which it was made.
    CannotRename,
}

impl fmt::Display for SaveFault {
    ghost use Rattle.std.specs.Prelude.{Some};
    ghost use Rattle.files_saving.specs.Fault.{text_of};

    ghost output = { λ fault. Some (text_of fault) };

    fn fmt<W: fmt::Write>(&self, f: &mut fmt::Formatter<W>) -> fmt::Result {
        let text = match self {
            SaveFault::Exists => "exists already",
            SaveFault::CannotLook => "cannot look",
            SaveFault::CannotCreate => "cannot create",
            SaveFault::CannotWrite => "cannot write",
            SaveFault::CannotSync => "cannot sync",
            SaveFault::CannotRename => "cannot rename",
        };
        write!(f, "{text}")
    }
}

impl std::error::Error for SaveFault {}
