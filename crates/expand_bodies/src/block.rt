//! Bodies as trees, whose names were looked up.

use expand_expressions::Formula;
use tag::Delay;

/// Where a value goes: to a state, to an output, or to an action, which is scheduled with it after a delay.
#[derive(Clone, Copy)]
pub enum Target {
    ToState(usize),
    ToOutput(usize),
    ToAction(usize, Delay),
}

/// Statements, one after the other, each with the line that it stands at. Behind the states of the federate each `let`
/// and each `if` has one of its own.
#[derive(Drop)]
pub enum Block {
    /// No statement is left.
    End,
    /// A value goes somewhere; then the rest.
    Do(usize, Target, Formula, Box<Block>),
    /// The same, where the first formula isn't 0.
    When(usize, Formula, Target, Formula, Box<Block>),
    /// The first free state gets a value, and isn't free in the rest.
    Let(usize, Formula, Box<Block>),
    /// The block where the formula isn't 0; then the rest.
    If(usize, Formula, Box<Block>, Box<Block>),
    /// The first block where the formula isn't 0, else the second; then the rest.
    IfElse(usize, Formula, Box<Block>, Box<Block>, Box<Block>),
}
