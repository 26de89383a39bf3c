ghost use Rattle.std.specs.Prelude.{◌≡◌};
ghost use Rattle.expand_federation.specs.declared.fault.ExpandFault.TheVariants.{Memory};

use expand_bodies::{BodyFault, BodyFaultKind};
use expand_source::{SourceFault, SourceFaultKind};
use loadfed::LoadFault;
use loadfed_tables::TableFault;
use std::alloc::{AllocError, AllocFailed};
use std::fmt;

/// Why a source has no federation file. But for `Memory`, whoever wrote the source caused it. Its lines count from 1;
/// 0 is none.
#[derive(Drop)]
pub enum ExpandFault {
    /// Something is wrong at a line of the source.
    Source(SourceFault),
    /// A body isn't expanded. The line is that of the source.
    Body(BodyFault),
    /// What comes out is no federation file.
    NoFederation(NoFederation),
    /// What comes out is a federation file, but not what the tables of the source say. Write braces in plain quotes, and
    /// keys without quotes.
    OtherMeaning,
    /// An allocation failed. The same call may be made again.
    Memory,
}

/// A text that is no federation file.
#[derive(Drop)]
pub struct NoFederation {
    /// What the loader answers.
    pub fault: LoadFault,
    pub text: Vec<u8>,
    /// For each line of the text the line of the source that it came of.
    pub lines: Vec<usize>,
}

impl fmt::Display for ExpandFault {
    fn fmt<W: fmt::Write>(&self, f: &mut fmt::Formatter<W>) -> fmt::Result {
        match self {
            ExpandFault::Source(fault) => write!(f, "{}", fault.kind),
            ExpandFault::Body(fault) => write!(f, "38 BadBody: {}", fault.kind),
            ExpandFault::NoFederation(text) => write!(f, "{}", text.fault),
            ExpandFault::OtherMeaning => write!(
                f,
                "39 OtherMeaning: write braces in plain quotes, and keys without quotes"
            ),
            ExpandFault::Memory => write!(f, "37 Memory"),
        }
    }
}

impl From<SourceFault> for ExpandFault {
    fn from(fault: SourceFault) -> ExpandFault {
        match fault.kind {
            SourceFaultKind::Memory => ExpandFault::Memory,
            _ => ExpandFault::Source(fault),
        }
    }
}

impl From<BodyFault> for ExpandFault {
    fn from(fault: BodyFault) -> ExpandFault {
        match fault.kind {
            BodyFaultKind::Memory => ExpandFault::Memory,
            _ => ExpandFault::Body(fault),
        }
    }
}

// Tables are read once more where the text was taken: what is wrong in them then shows that it says something else.
impl From<TableFault> for ExpandFault {
    fn from(fault: TableFault) -> ExpandFault {
        match fault {
            TableFault::Memory => ExpandFault::Memory,
            _ => ExpandFault::OtherMeaning,
        }
    }
}

impl From<AllocError> for ExpandFault {
    ghost from_gives = { λ _ fault. fault ≡ Memory };

    fn from(_error: AllocError) -> ExpandFault {
        ExpandFault::Memory
    }
}

impl<T: Drop> From<AllocFailed<T>> for ExpandFault {
    fn from(_failed: AllocFailed<T>) -> ExpandFault {
        ExpandFault::Memory
    }
}
