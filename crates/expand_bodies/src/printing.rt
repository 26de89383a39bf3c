//! Lines by number as texts.
ghost use Rattle.std.specs.Prelude.{◌≡◌};
ghost use Rattle.reactor_program.specs.Grammar.{operator_token};
ghost use Rattle.expand_bodies.specs.Printing.{name_at, state_name};

use crate::names::BodyNames;
use plan_names::{Names, Text};
use reactor_program::{Expression, Line, Operand, Operator, Statement};
use std::fmt;
use tag::Time;

/// The names that numbers are printed as.
#[derive(Clone, Copy)]
pub(crate) struct Printing<'a> {
    pub names: &'a BodyNames,
    /// The names of states behind the federate's own.
    pub scratch: &'a Names,
}

/// A line, to be printed.
#[derive(Clone, Copy)]
pub(crate) struct PrintedLine<'a> {
    pub printing: Printing<'a>,
    pub line: Line,
}

#[derive(Clone, Copy)]
struct PrintedOperand<'a> {
    printing: Printing<'a>,
    operand: Operand,
}

#[derive(Clone, Copy)]
struct PrintedExpression<'a> {
    printing: Printing<'a>,
    expression: Expression,
}

#[derive(Clone, Copy)]
struct PrintedStatement<'a> {
    printing: Printing<'a>,
    statement: Statement,
}

impl Printing<'_> {
    fn state(&self, number: usize) -> &str
        ensures { result.now ≡ state_name self.now.names.now self.now.scratch.now number }
    {
        let states = self.names.states.as_slice();
        if number < states.len() {
            return name_at(states, number);
        }
        name_at(self.scratch.as_slice(), number - states.len())
    }

    fn operand(&self, operand: Operand) -> PrintedOperand<'_>
        ensures { (result.printing ≡ self.now) × (result.operand ≡ operand) }
    {
        PrintedOperand {
            printing: *self,
            operand,
        }
    }
}

// Nothing where there is no such name; lines are made of names that are there.
fn name_at(names: &[Text], place: usize) -> &str
    ensures { result.now ≡ name_at names.now place }
{
    match names.get(place) {
        Some(name) => name.as_str(),
        None => "",
    }
}

fn operator_text(operator: Operator) -> &'static str
    ensures { result.now ≡ operator_token operator }
{
    match operator {
        Operator::Plus => "+",
        Operator::Minus => "-",
        Operator::Times => "*",
        Operator::Minimum => "min",
        Operator::Maximum => "max",
        Operator::Less => "<",
        Operator::Equal => "==",
    }
}

impl fmt::Display for PrintedOperand<'_> {
    ghost use Rattle.std.specs.Prelude.{Some};
    ghost use Rattle.expand_bodies.specs.Printing.{printed_operand};

    ghost output = { λ p. Some (printed_operand p.printing.names.now p.printing.scratch.now p.operand) };

    fn fmt<W: fmt::Write>(&self, f: &mut fmt::Formatter<W>) -> fmt::Result {
        let readable = self.printing.names.readable.as_slice();
        match self.operand {
            Operand::Number(number) => write!(f, "{number}"),
            Operand::State(state) => f.write_str(self.printing.state(state)),
            Operand::Value(slot) => write!(f, "in.{}", name_at(readable, slot)),
            Operand::Presence(slot) => write!(f, "has.{}", name_at(readable, slot)),
        }
    }
}

impl fmt::Display for PrintedExpression<'_> {
    ghost use Rattle.std.specs.Prelude.{Some};
    ghost use Rattle.expand_bodies.specs.Printing.{printed_expression};

    ghost output = { λ p. Some (printed_expression p.printing.names.now p.printing.scratch.now p.expression) };

    fn fmt<W: fmt::Write>(&self, f: &mut fmt::Formatter<W>) -> fmt::Result {
        match self.expression {
            Expression::Single(operand) => write!(f, "{}", self.printing.operand(operand)),
            Expression::Binary(left, operator, right) => {
                let left = self.printing.operand(left);
                let right = self.printing.operand(right);
                write!(f, "{left} {} {right}", operator_text(operator))
            }
        }
    }
}

impl fmt::Display for PrintedStatement<'_> {
    ghost use Rattle.std.specs.Prelude.{Some};
    ghost use Rattle.expand_bodies.specs.Printing.{printed_statement};

    ghost output = { λ p. Some (printed_statement p.printing.names.now p.printing.scratch.now p.statement) };

    fn fmt<W: fmt::Write>(&self, f: &mut fmt::Formatter<W>) -> fmt::Result {
        let names = self.printing.names;
        match self.statement {
            Statement::Assign(state, expression) => {
                let state = self.printing.state(state);
                let expression = PrintedExpression {
                    printing: self.printing,
                    expression,
                };
                write!(f, "{state} = {expression}")
            }
            Statement::Output(port, operand) => {
                let port = name_at(names.outputs.as_slice(), port);
                write!(f, "out.{port} = {}", self.printing.operand(operand))
            }
            Statement::Schedule(slot, delay, operand) => {
                let action = name_at(names.readable.as_slice(), slot);
                write!(f, "schedule {action} ")?;
                if let Some(time) = Time::new(delay.time()) {
                    write!(f, "{time} ")?;
                }
                write!(f, "{}", self.printing.operand(operand))
            }
        }
    }
}

impl fmt::Display for PrintedLine<'_> {
    ghost use Rattle.std.specs.Prelude.{Some};
    ghost use Rattle.expand_bodies.specs.Printing.{printed_line};

    ghost output = { λ p. Some (printed_line p.printing.names.now p.printing.scratch.now p.line) };

    fn fmt<W: fmt::Write>(&self, f: &mut fmt::Formatter<W>) -> fmt::Result {
        if let Some(condition) = self.line.condition {
            write!(f, "when {} : ", self.printing.operand(condition))?;
        }
        let statement = PrintedStatement {
            printing: self.printing,
            statement: self.line.statement,
        };
        write!(f, "{statement}")
    }
}
