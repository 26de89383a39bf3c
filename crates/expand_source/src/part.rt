//! The parts of a source.

use crate::token::Token;
use expand_expressions::NamedOperand;
use plan_names::Text;

/// A parameter's value that was given beside the source, as `NAME=VALUE`.
#[derive(Drop)]
pub struct Given {
    pub name: Text,
    pub value: i64,
}

/// A name for each number from the first one on, as many as there are to be.
#[derive(Drop)]
pub struct Range {
    pub name: Text,
    pub first: i64,
    pub count: usize,
}

/// A value that a copy gives a parameter of its class: an expression over the copy's number and parameters of the
/// source.
#[derive(Drop)]
pub struct Setting {
    pub line: usize,
    pub name: Text,
    pub expression: Text,
}

/// A piece of a source that stands in the federation once, or once for each number of a range: a federate, the
/// federates of a class, connections, or what stands around them.
#[derive(Drop)]
pub struct Part<'a> {
    /// Its first line in the source.
    pub line: usize,
    /// What is filled for each copy.
    pub template: Vec<Token<'a>>,
    /// None where it stands once.
    pub range: Option<Range>,
    pub settings: Vec<Setting>,
    /// What its class gives parameters where nothing is set.
    pub defaults: Vec<NamedOperand>,
    /// The parameters of the source. Of two of one name the first counts; before these come defaults, what is set, and
    /// the number of the copy.
    pub parameters: &'a [NamedOperand],
}
