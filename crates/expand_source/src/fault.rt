ghost use Rattle.std.specs.Prelude.{◌≡◌, IfOk, Ok};

use expand_expressions::ExpressionFault;
use loadfed_tables::TableFault;
use plan_names::Text;
use std::alloc::{AllocError, AllocFailed, Global};
use std::fmt;

/// Why a source isn't expanded, and at which of its lines, which count from 1; 0 where it is of none.
#[derive(Debug, Drop)]
pub struct SourceFault {
    pub line: usize,
    pub kind: SourceFaultKind,
}

/// What is wrong with a source. But for `Memory`, whoever wrote it caused it.
#[derive(Debug, Drop)]
pub enum SourceFaultKind {
    /// The source is no TOML.
    NotToml,
    /// A key is missing, is unknown, or has a value of another kind or form.
    WrongShape(Text),
    /// More federates or connections than a federation may have.
    TooMany,
    /// More bytes than a federation file may have, or more braces than a text may.
    OverLimit,
    /// A brace in a text without the other one.
    BadBrace,
    /// No expression, or one with a name that isn't there.
    BadExpression(ExpressionFault),
    /// Braces where an expression stands without them: in `count`, `with` and `for`.
    NeedlessBraces,
    /// A value for a parameter that isn't there.
    UnknownParameter(Text),
    /// A federate of a class that isn't there.
    UnknownClass(Text),
    /// Two classes of one name.
    RepeatedClass(Text),
    /// A range that isn't written `NAME in FIRST..LAST`.
    BadRange,
    /// An allocation failed. The same call may be made again.
    Memory,
}

impl SourceFaultKind {
    /// The fault at a line.
    pub(crate) fn at(self, line: usize) -> SourceFault {
        SourceFault { line, kind: self }
    }

    /// What is wrong at this key.
    pub(crate) fn wrong_shape(alloc: Global, key: &str) -> SourceFaultKind {
        match String::from_str(alloc, key) {
            Ok(key) => SourceFaultKind::WrongShape(Text::new(key)),
            Err(_) => SourceFaultKind::Memory,
        }
    }

    /// The number of the fault.
    pub fn number(&self) -> u32 {
        match self {
            SourceFaultKind::NotToml => 30,
            SourceFaultKind::WrongShape(_) => 31,
            SourceFaultKind::TooMany => 14,
            SourceFaultKind::OverLimit => 36,
            SourceFaultKind::Memory => 37,
            SourceFaultKind::BadBrace => 24,
            SourceFaultKind::BadExpression(_) | SourceFaultKind::NeedlessBraces => 25,
            SourceFaultKind::UnknownParameter(_) => 26,
            SourceFaultKind::UnknownClass(_) => 27,
            SourceFaultKind::RepeatedClass(_) => 28,
            SourceFaultKind::BadRange => 29,
        }
    }

    fn name(&self) -> &'static str {
        match self {
            SourceFaultKind::NotToml => "NotToml",
            SourceFaultKind::WrongShape(_) => "WrongShape",
            SourceFaultKind::TooMany | SourceFaultKind::OverLimit => "OverLimit",
            SourceFaultKind::BadBrace => "BadBrace",
            SourceFaultKind::BadExpression(_) | SourceFaultKind::NeedlessBraces => "BadExpression",
            SourceFaultKind::UnknownParameter(_) => "UnknownParameter",
            SourceFaultKind::UnknownClass(_) => "UnknownClass",
            SourceFaultKind::RepeatedClass(_) => "RepeatedClass",
            SourceFaultKind::BadRange => "BadRange",
            SourceFaultKind::Memory => "Memory",
        }
    }
}

impl fmt::Display for SourceFaultKind {
    fn fmt<W: fmt::Write>(&self, f: &mut fmt::Formatter<W>) -> fmt::Result {
        write!(f, "{} {}", self.number(), self.name())?;
        match self {
            SourceFaultKind::WrongShape(name)
            | SourceFaultKind::UnknownParameter(name)
            | SourceFaultKind::UnknownClass(name)
            | SourceFaultKind::RepeatedClass(name) => write!(f, " {}", name.as_str()),
            SourceFaultKind::BadExpression(fault) => write!(f, ": {fault}"),
            SourceFaultKind::NeedlessBraces => f.write_str(": no braces stand here"),
            _ => Ok(()),
        }
    }
}

/// What was answered for a line, with the line in its fault.
pub(crate) fn at<T: Drop>(line: usize, answer: Result<T, SourceFaultKind>) -> Result<T, SourceFault>
    ensures { IfOk result (λ value. answer ≡ Ok value) }
{
    match answer {
        Ok(value) => Ok(value),
        Err(kind) => Err(kind.at(line)),
    }
}

impl From<TableFault> for SourceFaultKind {
    fn from(fault: TableFault) -> SourceFaultKind {
        match fault {
            TableFault::NotToml => SourceFaultKind::NotToml,
            TableFault::WrongShape(key) => SourceFaultKind::WrongShape(key),
            TableFault::OverLimit => SourceFaultKind::OverLimit,
            TableFault::Memory => SourceFaultKind::Memory,
        }
    }
}

impl From<ExpressionFault> for SourceFaultKind {
    fn from(fault: ExpressionFault) -> SourceFaultKind {
        match fault {
            ExpressionFault::Memory => SourceFaultKind::Memory,
            fault => SourceFaultKind::BadExpression(fault),
        }
    }
}

impl From<AllocError> for SourceFaultKind {
    fn from(_error: AllocError) -> SourceFaultKind {
        SourceFaultKind::Memory
    }
}

impl<T: Drop> From<AllocFailed<T>> for SourceFaultKind {
    fn from(_failed: AllocFailed<T>) -> SourceFaultKind {
        SourceFaultKind::Memory
    }
}
