//! Expressions, read by how tightly their operators bind.
//!
//! From the loosest: `or`; `and`; `not`; a comparison, of which at most one stands in a row; `+ -`; `* / %`; `-` in
//! front. `min(a, b)` and `max(a, b)` are calls: nobody need know how tightly they bind.

ghost use Rattle.std.specs.Prelude.{◌≡◌, ◌<◌, ◌≤◌, ◌∷◌, [], IfOk, OnOk, MatchBool, MatchOption, neg_ℤ, pos, FitsSigned};
ghost use Rattle.std.specs.Int.{w64};
ghost use Rattle.reactor_program.specs.declared.program.Operand.TheVariants.{Number};
ghost use Rattle.expand_expressions.specs.declared.formula.Formula.TheVariants.{Leaf};
ghost use Rattle.expand_expressions.specs.declared.token.Sign.TheVariants.{Minus};
ghost use Rattle.expand_expressions.specs.declared.token.Token.{Token};
ghost use Rattle.expand_expressions.specs.declared.token.Token.TheVariants.{Digits, Operator, Not, Call, Open, Close, Comma};
ghost use Rattle.expand_expressions.specs.Grammar.{Spells, level_of, left_level, joining_of, IsJoined, IsKnown};
ghost use Rattle.expand_expressions.specs.declared.token.Joining.TheVariants.{Combines};
ghost use Rattle.expand_expressions.specs.Reading.{Reads};

use crate::fault::ExpressionFault;
use crate::formula::{Combination, Formula};
use crate::known::Known;
use crate::token::{Joining, MOST_TOKENS, Sign, Token, tokens};
use reactor_program::Operand;
use std::alloc::Global;

/// How tightly what is anything binds at least.
const LOOSEST: u8 = 1;

/// How tightly `not` binds.
const OPPOSITE: u8 = 3;

/// How tightly what has no operator binds, but in front or within parentheses.
const TIGHTEST: u8 = 7;

/// The formula that a text spells, with these names.
pub fn read_formula(
    alloc: Global,
    known: Known<'_>,
    text: &[u8],
) -> Result<Formula, ExpressionFault>
    ensures { IfOk result (λ formula. Reads known.entry.operands.now known.entry.readable.now text.now formula) }
{
    let tokens = tokens(alloc, known, text)?;
    formula_of(alloc, tokens.as_slice())
}

/// The formula that tokens spell.
pub fn formula_of(alloc: Global, tokens: &[Token]) -> Result<Formula, ExpressionFault>
    ensures { IfOk result (λ formula. Spells 1 tokens.now formula []) }
{
    let mut reader = Reader {
        alloc,
        rest: tokens,
    };
    let formula = reader.formula(LOOSEST, MOST_TOKENS)?;
    match reader.rest {
        [] => Ok(formula),
        _ => Err(ExpressionFault::NoForm),
    }
}

/// A formula, and how tightly what spells it binds.
#[derive(Drop)]
struct Part {
    formula: Formula,
    level: u8,
}

/// Takes tokens from the front.
#[derive(Drop)]
struct Reader<'a> {
    alloc: Global,
    rest: &'a [Token],
}

impl Reader<'_> {
    // The longest expression that stands here, of operators of this level or tighter ones. Each call within another may
    // go one less deep.
    #[cycle(reading)]
    fn formula(&mut self, loosest: u8, depth: usize) -> Result<Formula, ExpressionFault>
        requires { loosest ≤ 7 }
        ensures { IfOk result (λ formula. Spells loosest self.old.rest.now formula self.new.rest.now) }
    {
        let part = self.part(loosest, depth)?;
        let mut formula = part.formula;
        let mut level = part.level;
        // There are no more operators than tokens.
        'operators: for _ in 0..self.rest.len() {
            match self.take_sign(loosest, level) {
                Some(sign) => {
                    let right = self.formula(sign.level() + 1, deeper(depth)?)?;
                    formula = joined(self.alloc, formula, sign, right)?;
                    level = sign.level();
                }
                None => return Ok(formula),
            }
        }
        Ok(formula)
    }

    // What stands in front of the first operator: an operand, or all behind a `not`, where it may stand.
    #[cycle(reading)]
    fn part(&mut self, loosest: u8, depth: usize) -> Result<Part, ExpressionFault>
        requires { loosest ≤ 7 }
        ensures { IfOk result (λ part. (loosest ≤ part.level)
            × Spells part.level self.old.rest.now part.formula self.new.rest.now) }
    {
        if self.take_not(loosest) {
            let formula = self.formula(OPPOSITE, deeper(depth)?)?;
            return Ok(Part {
                formula: Formula::Not(Box::new(self.alloc, formula)?),
                level: OPPOSITE,
            });
        }
        Ok(Part {
            formula: self.operand(depth)?,
            level: TIGHTEST,
        })
    }

    // What has no operator in it but in front or within parentheses.
    #[cycle(reading)]
    fn operand(&mut self, depth: usize) -> Result<Formula, ExpressionFault>
        ensures { IfOk result (λ formula. Spells 7 self.old.rest.now formula self.new.rest.now) }
    {
        let within = deeper(depth)?;
        match self.take()? {
            Token::Digits(magnitude) => positive(magnitude),
            Token::Name(operand) => Ok(Formula::Leaf(operand)),
            Token::Operator(Sign::Minus) => self.negative(within),
            Token::Call(combination) => self.call(combination, within),
            Token::Open => self.enclosed(within),
            _ => Err(ExpressionFault::NoForm),
        }
    }

    // What stands behind a `-` in front: the least number of 64 bits has no form without it.
    #[cycle(reading)]
    fn negative(&mut self, depth: usize) -> Result<Formula, ExpressionFault>
        ensures { IfOk result (λ formula. Spells 7 (Operator Minus ∷ self.old.rest.now) formula self.new.rest.now) }
    {
        match self.take_digits() {
            Some(magnitude) => negated(magnitude),
            None => {
                let formula = self.operand(depth)?;
                Ok(Formula::Negative(Box::new(self.alloc, formula)?))
            }
        }
    }

    // Two arguments in parentheses.
    #[cycle(reading)]
    fn call(&mut self, combination: Combination, depth: usize) -> Result<Formula, ExpressionFault>
        ensures { IfOk result (λ formula. Spells 7 (Call combination ∷ self.old.rest.now) formula self.new.rest.now) }
    {
        self.take_open()?;
        let left = self.formula(LOOSEST, depth)?;
        self.take_comma()?;
        let right = self.formula(LOOSEST, depth)?;
        self.take_close()?;
        combined(self.alloc, left, combination, right)
    }

    // What stands behind an opening parenthesis, and the closing one.
    #[cycle(reading)]
    fn enclosed(&mut self, depth: usize) -> Result<Formula, ExpressionFault>
        ensures { IfOk result (λ formula. Spells 7 (Open ∷ self.old.rest.now) formula self.new.rest.now) }
    {
        let formula = self.formula(LOOSEST, depth)?;
        self.take_close()?;
        Ok(formula)
    }

    fn take(&mut self) -> Result<Token, ExpressionFault>
        ensures { IfOk result (λ token. self.old.rest.now ≡ token ∷ self.new.rest.now) }
    {
        match self.rest {
            [token, rest @ ..] => {
                self.rest = rest;
                Ok(*token)
            }
            [] => Err(ExpressionFault::NoForm),
        }
    }

    // The number that stands next, if one does.
    fn take_digits(&mut self) -> Option<u64>
        ensures { MatchOption result (self.new.rest.now ≡ self.old.rest.now)
            (λ magnitude. self.old.rest.now ≡ Digits magnitude ∷ self.new.rest.now) }
    {
        match self.rest {
            [Token::Digits(magnitude), rest @ ..] => {
                self.rest = rest;
                Some(*magnitude)
            }
            _ => None,
        }
    }

    // Whether a `not` stands next where one may, which is taken.
    fn take_not(&mut self, loosest: u8) -> bool
        ensures { MatchBool result ((loosest ≤ 3) × (self.old.rest.now ≡ Not ∷ self.new.rest.now))
            (self.new.rest.now ≡ self.old.rest.now) }
    {
        match self.rest {
            [Token::Not, rest @ ..] if loosest <= OPPOSITE => {
                self.rest = rest;
                true
            }
            _ => false,
        }
    }

    // The operator that stands next, if it binds so tightly, and what is to the left of it does.
    fn take_sign(&mut self, loosest: u8, level: u8) -> Option<Sign>
        ensures { MatchOption result (self.new.rest.now ≡ self.old.rest.now)
            (λ sign. (self.old.rest.now ≡ Operator sign ∷ self.new.rest.now) × (loosest ≤ level_of sign)
            × (left_level sign ≤ level)) }
    {
        match self.rest {
            [Token::Operator(sign), rest @ ..]
                if sign.level() >= loosest && sign.left_level() <= level => {
                self.rest = rest;
                Some(*sign)
            }
            _ => None,
        }
    }

    fn take_open(&mut self) -> Result<(), ExpressionFault>
        ensures { OnOk result (self.old.rest.now ≡ Open ∷ self.new.rest.now) }
    {
        match self.rest {
            [Token::Open, rest @ ..] => {
                self.rest = rest;
                Ok(())
            }
            _ => Err(ExpressionFault::NoForm),
        }
    }

    fn take_comma(&mut self) -> Result<(), ExpressionFault>
        ensures { OnOk result (self.old.rest.now ≡ Comma ∷ self.new.rest.now) }
    {
        match self.rest {
            [Token::Comma, rest @ ..] => {
                self.rest = rest;
                Ok(())
            }
            _ => Err(ExpressionFault::NoForm),
        }
    }

    fn take_close(&mut self) -> Result<(), ExpressionFault>
        ensures { OnOk result (self.old.rest.now ≡ Close ∷ self.new.rest.now) }
    {
        match self.rest {
            [Token::Close, rest @ ..] => {
                self.rest = rest;
                Ok(())
            }
            _ => Err(ExpressionFault::NoForm),
        }
    }
}

// Two formulas with an operator between them.
fn joined(
    alloc: Global,
    left: Formula,
    sign: Sign,
    right: Formula,
) -> Result<Formula, ExpressionFault>
    ensures { IfOk result (λ formula. IsJoined formula left (joining_of sign) right) }
{
    match sign.joining() {
        Joining::Combines(combination) => combined(alloc, left, combination, right),
        Joining::Divides => {
            let divisor = divisor(&right)?;
            Ok(Formula::Quotient(Box::new(alloc, left)?, divisor))
        }
        Joining::Leaves => {
            let divisor = divisor(&right)?;
            Ok(Formula::Remainder(Box::new(alloc, left)?, divisor))
        }
    }
}

fn combined(
    alloc: Global,
    left: Formula,
    combination: Combination,
    right: Formula,
) -> Result<Formula, ExpressionFault>
    ensures { IfOk result (λ formula. IsJoined formula left (Combines combination) right) }
{
    let left = Box::new(alloc, left)?;
    let right = Box::new(alloc, right)?;
    Ok(Formula::Combined(left, combination, right))
}

// A divisor is known before the run.
fn divisor(formula: &Formula) -> Result<i64, ExpressionFault>
    ensures { IfOk result (λ n. IsKnown formula.now n) }
{
    formula.constant().ok_or(ExpressionFault::NotConstant)
}

// One less; an expression goes no deeper than it has tokens.
fn deeper(depth: usize) -> Result<usize, ExpressionFault>
    ensures { IfOk result (λ within. within < depth) }
{
    depth.checked_sub(1).ok_or(ExpressionFault::TooLong)
}

fn positive(magnitude: u64) -> Result<Formula, ExpressionFault>
    ensures { IfOk result
        (λ formula. (formula ≡ Leaf (Number (pos magnitude))) × FitsSigned w64 (pos magnitude)) }
{
    match i64::try_from(magnitude) {
        Ok(number) => Ok(Formula::Leaf(Operand::Number(number))),
        Err(_) => Err(ExpressionFault::BeyondNumber),
    }
}

fn negated(magnitude: u64) -> Result<Formula, ExpressionFault>
    ensures { IfOk result (λ formula. (formula ≡ Leaf (Number (neg_ℤ (pos magnitude))))
        × FitsSigned w64 (neg_ℤ (pos magnitude))) }
{
    match 0i64.checked_sub_unsigned(magnitude) {
        Some(number) => Ok(Formula::Leaf(Operand::Number(number))),
        None => Err(ExpressionFault::BeyondNumber),
    }
}
