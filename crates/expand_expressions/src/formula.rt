//! Formulas: expressions of any depth, whose names were looked up.

ghost use Rattle.std.specs.Prelude.{◌≡◌, ℕ, ℤ, List, Option, IfSome};
ghost use Rattle.expand_expressions.specs.Meaning.{value_of, gives_truth, reads_truths, is_truth};

use reactor_program::Operand;

/// What two formulas are combined to. Comparisons, `Both` and `Either` give 1 or 0.
#[derive(Clone, Copy, Debug, PartialEq, Eq)]
pub enum Combination {
    Sum,
    Difference,
    Product,
    Least,
    Greatest,
    IsLess,
    IsAtMost,
    IsGreater,
    IsAtLeast,
    IsEqual,
    IsDifferent,
    /// Neither is 0.
    Both,
    /// One of them isn't 0.
    Either,
}

/// A whole number, computed from numbers, states, and what is present.
#[derive(Drop)]
pub enum Formula {
    Leaf(Operand),
    Negative(Box<Formula>),
    /// 1 where the formula is 0, else 0.
    Not(Box<Formula>),
    Combined(Box<Formula>, Combination, Box<Formula>),
    /// Rounded to 0; 0 where the divisor is 0.
    Quotient(Box<Formula>, i64),
    /// What such a quotient leaves, so all of the formula where the divisor is 0.
    Remainder(Box<Formula>, i64),
}

impl Combination {
    /// Whether only 1 and 0 come of it.
    pub fn is_truth(self) -> bool
        ensures { result ≡ gives_truth self }
    {
        match self {
            Combination::Sum
            | Combination::Difference
            | Combination::Product
            | Combination::Least
            | Combination::Greatest => false,
            Combination::IsLess
            | Combination::IsAtMost
            | Combination::IsGreater
            | Combination::IsAtLeast
            | Combination::IsEqual
            | Combination::IsDifferent
            | Combination::Both
            | Combination::Either => true,
        }
    }

    /// Whether it asks only whether its sides are 0.
    pub fn reads_truths(self) -> bool
        ensures { result ≡ reads_truths self }
    {
        match self {
            Combination::Both | Combination::Either => true,
            _ => false,
        }
    }
}

impl Formula {
    /// Whether it can only be 1 or 0.
    pub fn is_truth(&self) -> bool
        ensures { result ≡ is_truth self.now }
    {
        match self {
            Formula::Leaf(Operand::Presence(_)) | Formula::Not(_) => true,
            Formula::Combined(_, combination, _) => combination.is_truth(),
            _ => false,
        }
    }

    /// Its value where it is known before any run: of numbers, their sums, differences and products.
    pub fn constant(&self) -> Option<i64>
        ensures { IfSome result (λ number. (states : List ℤ) (present : ℕ → Option ℤ)
            → value_of states present self.now ≡ number) }
    {
        match self {
            Formula::Leaf(Operand::Number(number)) => Some(*number),
            Formula::Negative(formula) => Some(0i64.wrapping_sub(formula.constant()?)),
            Formula::Combined(left, Combination::Sum, right) => {
                Some(left.constant()?.wrapping_add(right.constant()?))
            }
            Formula::Combined(left, Combination::Difference, right) => {
                Some(left.constant()?.wrapping_sub(right.constant()?))
            }
            Formula::Combined(left, Combination::Product, right) => {
                Some(left.constant()?.wrapping_mul(right.constant()?))
            }
            _ => None,
        }
    }
}
