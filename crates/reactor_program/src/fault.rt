ghost use Rattle.std.specs.Prelude.{◌≡◌};

use crate::ProgramFault;

/// What is wrong with one line.
#[derive(Clone, Copy)]
pub(crate) enum LineFault {
    NoForm,
    UnknownName,
}

impl LineFault {
    ghost use Rattle.reactor_program.specs.Reading.{told_at};

    /// The fault with its place.
    pub(crate) fn at(self, reaction: usize, line: usize) -> ProgramFault
        ensures { result ≡ told_at reaction line self }
    {
        match self {
            LineFault::NoForm => ProgramFault::BadLine { reaction, line },
            LineFault::UnknownName => ProgramFault::UnknownOperand { reaction, line },
        }
    }
}
