//! What names in expressions stand for.
ghost use Rattle.std.specs.Prelude.{◌≡◌, IfSome};
ghost use Rattle.plan_names.specs.Naming.{place_of};
ghost use Rattle.expand_expressions.specs.Reading.{StandsFor, operand_named};

use crate::words::after;
use plan_names::{Names, Text};
use reactor_program::Operand;

/// A name, and what it stands for: a number, or a state.
#[derive(Drop)]
pub struct NamedOperand {
    pub name: Text,
    pub operand: Operand,
}

/// The names that an expression may have. Of two that are the same the first counts.
#[derive(Clone, Copy)]
pub struct Known<'a> {
    /// Names by themselves.
    pub operands: &'a [NamedOperand],
    /// What may stand after `in.` and `has.`; its slot is its place here.
    pub readable: &'a Names,
}

impl Known<'_> {
    /// What a name, `in.NAME` or `has.NAME` stands for.
    pub fn operand(&self, word: &[u8]) -> Option<Operand>
        ensures { IfSome result (λ operand. StandsFor self.now.operands.now self.now.readable.now word.now operand) }
    {
        if let Some(name) = after(b"in.", word) {
            return Some(Operand::Value(self.slot(name)?));
        }
        if let Some(name) = after(b"has.", word) {
            return Some(Operand::Presence(self.slot(name)?));
        }
        self.named(word)
    }

    /// What a name by itself stands for.
    pub fn named(&self, name: &[u8]) -> Option<Operand>
        ensures { result ≡ operand_named self.now.operands.now name.now }
    {
        self.operands
            .iter()
            .find(|known| known.name.as_str().as_bytes() == name)
            .map(|known| known.operand)
    }

    fn slot(&self, name: &[u8]) -> Option<usize>
        ensures { result ≡ place_of self.now.readable.now name.now }
    {
        self.readable.place_of(name)
    }
}
