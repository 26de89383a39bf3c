ghost use Rattle.std.specs.Prelude.{◌≡◌};

use std::alloc::{AllocError, AllocFailed};
use std::fmt;

/// Why a text is no expression, or why there are no lines for it.
#[derive(Clone, Copy, Debug, PartialEq, Eq)]
pub enum ExpressionFault {
    /// The text isn't written as an expression is.
    NoForm,
    /// A name in it isn't there, or is of another kind.
    UnknownName,
    /// A number beyond 64 bits.
    BeyondNumber,
    /// What is divided by isn't known before the run. Divide by a number or by the name of one.
    NotConstant,
    /// More than `MOST_TOKENS` tokens. Part it by `let`.
    TooLong,
    /// There is no scratch state left for what is in between.
    TooManyStates,
    /// An allocation failed. The same call may be made again.
    Memory,
}

impl fmt::Display for ExpressionFault {
    fn fmt<W: fmt::Write>(&self, f: &mut fmt::Formatter<W>) -> fmt::Result {
        f.write_str(match self {
            ExpressionFault::NoForm => "no expression",
            ExpressionFault::UnknownName => "unknown name",
            ExpressionFault::BeyondNumber => "a number beyond 64 bits",
            ExpressionFault::NotConstant => "divided by what is no constant",
            ExpressionFault::TooLong => "an expression of more than 512 tokens",
            ExpressionFault::TooManyStates => "more than 64 states",
            ExpressionFault::Memory => "out of memory",
        })
    }
}

impl From<AllocError> for ExpressionFault {
    ghost use Rattle.expand_expressions.specs.declared.fault.ExpressionFault.TheVariants.{Memory};

    ghost from_gives = { λ _ fault. fault ≡ Memory };

    fn from(_error: AllocError) -> ExpressionFault {
        ExpressionFault::Memory
    }
}

impl<T: Drop> From<AllocFailed<T>> for ExpressionFault {
    ghost use Rattle.expand_expressions.specs.declared.fault.ExpressionFault.TheVariants.{Memory};

    ghost from_gives = { λ _ fault. fault ≡ Memory };

    fn from(_failed: AllocFailed<T>) -> ExpressionFault {
        ExpressionFault::Memory
    }
}
