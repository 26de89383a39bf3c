//! What is made of the answers for the parts of a line.
ghost use Rattle.std.specs.Prelude.{◌≡◌, ◌≢◌, MatchOption, ◌++◌, List, ℕ};
ghost use Rattle.reactor_program.specs.Reading.{name_read, made_of_both, pair_of};

use crate::fault::LineFault;

/// A name with the number that it stands for, if any.
pub(super) fn numbered(well_formed: bool, number: Option<usize>) -> Result<usize, LineFault>
    ensures { result ≡ name_read well_formed number }
{
    if well_formed {
        number.ok_or(LineFault::UnknownName)
    } else {
        Err(LineFault::NoForm)
    }
}

/// Both of two answers; where either has no form, that is the answer.
pub(super) fn both<A: Drop, B: Drop>(
    a: Result<A, LineFault>,
    b: Result<B, LineFault>,
) -> Result<(A, B), LineFault>
    ensures { result ≡ made_of_both pair_of a b }
{
    match (a, b) {
        (Ok(a), Ok(b)) => Ok((a, b)),
        (Err(LineFault::NoForm), _) | (_, Err(LineFault::NoForm)) => Err(LineFault::NoForm),
        _ => Err(LineFault::UnknownName),
    }
}

/// What follows this front of a text.
pub(super) fn after<'a>(front: &[u8], text: &'a [u8]) -> Option<&'a [u8]>
    ensures { MatchOption result ((rest : List ℕ) → text.now ≢ front.now ++ rest)
        (λ rest. text.now ≡ front.now ++ rest.now) }
{
    text.strip_prefix(front)
}
