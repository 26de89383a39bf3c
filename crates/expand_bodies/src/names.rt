//! What the bodies of a federate may name.
ghost use Rattle.std.specs.Prelude.{◌≡◌, IfOk};
ghost use Rattle.expand_bodies.specs.Reading.{operands_of};

use expand_expressions::NamedOperand;
use plan_names::{Names, Text};
use reactor_program::Operand;
use std::alloc::{AllocError, Global};

/// A name that stands for a number.
#[derive(Drop)]
pub struct Constant {
    pub name: Text,
    pub value: i64,
}

/// What names in the bodies of one federate stand for. No two states have one name, nor two constants. Where a constant
/// has a state's name, the state counts.
#[derive(Drop)]
pub struct BodyNames {
    /// In the order in which the federate declares them.
    pub states: Names,
    /// What may stand after `in.` and `has.`: inputs, timers, actions, physical actions, and `startup` where a reaction
    /// of the federate is triggered by it.
    pub readable: Names,
    pub outputs: Names,
    /// What may be scheduled: actions that aren't physical. They are readable too.
    pub actions: Names,
    pub constants: Vec<Constant>,
}

impl BodyNames {
    /// The names that stand by themselves: states by number, then constants.
    pub(crate) fn operands(&self, alloc: Global) -> Result<Vec<NamedOperand>, AllocError>
        ensures { IfOk result (λ operands. operands.items ≡ operands_of self.now) }
    {
        let mut operands = Vec::new(alloc);
        for (number, name) in self.states.as_slice().iter().enumerate() {
            operands.push(NamedOperand {
                name: name.clone()?,
                operand: Operand::State(number),
            })?;
        }
        for constant in &self.constants {
            operands.push(NamedOperand {
                name: constant.name.clone()?,
                operand: Operand::Number(constant.value),
            })?;
        }
        Ok(operands)
    }
}
