ghost use Rattle.std.specs.Prelude.{◌≡◌, OnOk, true};

use expand_source::SourceFaultKind;
use loadfed_tables::TableFault;
use std::alloc::{AllocError, AllocFailed};

/// Why a document isn't found to be an expansion.
#[derive(Drop)]
pub(crate) enum Mismatch {
    /// It says something else.
    Differs,
    /// Whether it is one can't be said.
    Unknown(SourceFaultKind),
}

/// Goes on where this is so.
pub(crate) fn want(is_so: bool) -> Result<(), Mismatch>
    ensures { OnOk result (is_so ≡ true) }
{
    if is_so {
        Ok(())
    } else {
        Err(Mismatch::Differs)
    }
}

impl From<SourceFaultKind> for Mismatch {
    fn from(kind: SourceFaultKind) -> Mismatch {
        Mismatch::Unknown(kind)
    }
}

impl From<TableFault> for Mismatch {
    fn from(fault: TableFault) -> Mismatch {
        match fault {
            TableFault::Memory => Mismatch::Unknown(SourceFaultKind::Memory),
            _ => Mismatch::Differs,
        }
    }
}

impl From<AllocError> for Mismatch {
    fn from(_error: AllocError) -> Mismatch {
        Mismatch::Unknown(SourceFaultKind::Memory)
    }
}

impl<T: Drop> From<AllocFailed<T>> for Mismatch {
    fn from(_failed: AllocFailed<T>) -> Mismatch {
        Mismatch::Unknown(SourceFaultKind::Memory)
    }
}
