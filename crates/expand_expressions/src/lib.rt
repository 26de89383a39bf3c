//! Whole-number expressions: how they are read, what they mean, and today's body lines that compute them.
//!
//! Promise to the layer above: after the lines that `work_out` adds, the one-operator expression that it answers has
//! the formula's value (`specs/Meaning`), and nothing is changed but scratch states (`laws`). Begin with `formula` and
//! `specs/Meaning`, then `working` and `specs/Working`; `division` is the long way of quotients and remainders.
//!
//! `reading` reads texts as formulas: a text is read as what its tokens spell (`specs/Reading`, `specs/Grammar`), so what
//! names stand for and how tightly operators bind is proved. That all is read that is spelled is tested alone.
#![tactic(auto)]

mod division;
pub mod fault;
pub mod formula;
pub mod known;
pub mod laws;
pub mod reading;
pub mod token;
pub mod words;
pub mod working;

pub use fault::ExpressionFault;
pub use formula::{Combination, Formula};
pub use known::{Known, NamedOperand};
pub use reading::{formula_of, read_formula};
pub use token::{Joining, Sign, Token};
pub use working::{Stored, negation, put, store, truth, work_out};
