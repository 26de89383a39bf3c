ghost use Rattle.std.specs.Prelude.{◌≡◌, IfOk, Ok};

use expand_expressions::ExpressionFault;
use std::alloc::{AllocError, AllocFailed};
use std::fmt;

/// Why a body isn't expanded, and at which of its lines, which count from 1; 0 for `Memory`. Nothing of it is kept.
#[derive(Clone, Copy, Debug, PartialEq, Eq)]
pub struct BodyFault {
    pub line: usize,
    pub kind: BodyFaultKind,
}

/// What is wrong with a line. But for `Memory`, whoever wrote the body caused it.
#[derive(Clone, Copy, Debug, PartialEq, Eq)]
pub enum BodyFaultKind {
    /// The line is of no form.
    NoForm,
    /// A name in it isn't there, or is of another kind.
    UnknownName,
    /// A number beyond 64 bits.
    BeyondNumber,
    /// What is divided by isn't known before the run.
    NotConstant,
    /// An expression of more than 512 tokens.
    TooLong,
    /// A `let` of a name that a state, a constant or another `let` has.
    RepeatedName,
    /// `elif`, `else` or `end` without an `if` before it; `elif` or `else` after `else`.
    NoBranch,
    /// This `if` has no `end`.
    NoEnd,
    /// The body has more than 1,024 lines as it is written.
    LongBody,
    /// With this line's the reaction has more than 256 lines.
    TooManyLines,
    /// With this line's the federate has more than 64 states.
    TooManyStates,
    /// An allocation failed. The same call may be made again.
    Memory,
}

impl fmt::Display for BodyFaultKind {
    fn fmt<W: fmt::Write>(&self, f: &mut fmt::Formatter<W>) -> fmt::Result {
        f.write_str(match self {
            BodyFaultKind::NoForm => "no line of a body",
            BodyFaultKind::UnknownName => "unknown name",
            BodyFaultKind::BeyondNumber => "a number beyond 64 bits",
            BodyFaultKind::NotConstant => "divided by what is no constant",
            BodyFaultKind::TooLong => "an expression of more than 512 tokens",
            BodyFaultKind::RepeatedName => "a name that is there already",
            BodyFaultKind::NoBranch => "no if before it",
            BodyFaultKind::NoEnd => "no end of this if",
            BodyFaultKind::LongBody => "a body of more than 1024 lines",
            BodyFaultKind::TooManyLines => "more than 256 lines",
            BodyFaultKind::TooManyStates => "more than 64 states",
            BodyFaultKind::Memory => "out of memory",
        })
    }
}

impl BodyFaultKind {
    /// The fault at a line.
    pub(crate) fn at(self, line: usize) -> BodyFault {
        match self {
            BodyFaultKind::Memory => BodyFault {
                line: 0,
                kind: self,
            },
            _ => BodyFault { line, kind: self },
        }
    }
}

/// What was answered for a line, with the line in its fault.
pub(crate) fn at<T: Drop>(place: usize, answer: Result<T, ExpressionFault>) -> Result<T, BodyFault>
    ensures { IfOk result (λ value. answer ≡ Ok value) }
{
    match answer {
        Ok(value) => Ok(value),
        Err(fault) => Err(BodyFaultKind::from(fault).at(place)),
    }
}

/// The same of an answer that has a fault of a line already.
pub(crate) fn placed<T: Drop>(
    place: usize,
    answer: Result<T, BodyFaultKind>,
) -> Result<T, BodyFault>
    ensures { IfOk result (λ value. answer ≡ Ok value) }
{
    match answer {
        Ok(value) => Ok(value),
        Err(kind) => Err(kind.at(place)),
    }
}

impl From<ExpressionFault> for BodyFaultKind {
    fn from(fault: ExpressionFault) -> BodyFaultKind {
        match fault {
            ExpressionFault::NoForm => BodyFaultKind::NoForm,
            ExpressionFault::UnknownName => BodyFaultKind::UnknownName,
            ExpressionFault::BeyondNumber => BodyFaultKind::BeyondNumber,
            ExpressionFault::NotConstant => BodyFaultKind::NotConstant,
            ExpressionFault::TooLong => BodyFaultKind::TooLong,
            ExpressionFault::TooManyStates => BodyFaultKind::TooManyStates,
            ExpressionFault::Memory => BodyFaultKind::Memory,
        }
    }
}

impl From<AllocError> for BodyFaultKind {
    fn from(_error: AllocError) -> BodyFaultKind {
        BodyFaultKind::Memory
    }
}

impl<T: Drop> From<AllocFailed<T>> for BodyFaultKind {
    fn from(_failed: AllocFailed<T>) -> BodyFaultKind {
        BodyFaultKind::Memory
    }
}
