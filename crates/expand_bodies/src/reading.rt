//! Bodies, read line by line as trees.
//!
//! A `let` or an `if` takes the first free state for as long as it lasts, so a name is a state by number once it is
//! read.

ghost use Rattle.std.specs.Prelude.{◌≡◌, ℕ, ◌+◌, ◌<◌, ◌≤◌, ◌^◌, List, ◌∷◌, ◌++◌, [], length, take, not};
ghost use Rattle.std.specs.Prelude.{Some, IfOk, IfSome, OnOk, MatchOption};
ghost use Rattle.std.specs.List.{prefix_len};
ghost use Rattle.tag_text.specs.Duration.{Spells};
ghost use Rattle.reactor_program.specs.Tokens.{is_space};
ghost use Rattle.expand_expressions.specs.Words.{IsBehindSpaces};
ghost use Rattle.expand_expressions.specs.Reading.{IsCallText, Reads};
ghost use Rattle.expand_bodies.specs.declared.block.Block.{Block};
ghost use Rattle.expand_bodies.specs.declared.block.Block.TheVariants.{End};
ghost use Rattle.expand_bodies.specs.declared.reading.Ending.TheVariants as ending;
ghost use Rattle.expand_bodies.specs.Forms.{IsLetLine};
ghost use Rattle.expand_bodies.specs.Reading.{lines_of, ReadsValue, IsPartBefore, IsDeed, IsNew, unchanging, IsIf};
ghost use Rattle.expand_bodies.specs.Reading.{ReadsBlock, ReadsBranches, ReadsBody, unboxed};

use crate::block::{Block, Target};
use crate::fault::{BodyFault, BodyFaultKind, placed};
use crate::form::{Deed, Form, form_of, is_blank, next_word};
use crate::names::BodyNames;
use expand_expressions::words::after_spaces;
use expand_expressions::{Combination, Formula, Known, NamedOperand, read_formula};
use plan_names::{Text, is_name};
use reactor_program::Operand;
use reactor_program::limits::MOST_STATES;
use std::alloc::Global;
use tag::{Delay, Time};
use tag_text::parse_duration;

/// The most lines of a body, before it is expanded: so it is bounded how deep one goes.
pub const MOST_BODY_LINES: usize = 1024;

/// The tree of a body, where all of its lines are good.
pub(crate) fn read_body(
    alloc: Global,
    names: &BodyNames,
    lines: &[Text],
) -> Result<Box<Block>, BodyFault>
    ensures { IfOk result (λ block. ReadsBody names.now lines.now block.value) }
{
    if lines.len() > MOST_BODY_LINES {
        return Err(BodyFaultKind::LongBody.at(MOST_BODY_LINES + 1));
    }
    let operands = match names.operands(alloc) {
        Ok(operands) => operands,
        Err(_) => return Err(BodyFaultKind::Memory.at(0)),
    };
    let mut reader = Reader {
        alloc,
        names,
        operands,
        rest: lines,
        place: 0,
    };
    let Part { block, ending } = reader.statements(names.states.as_slice().len())?;
    let body = reader.boxed(block)?;
    match ending {
        Ending::Last => Ok(body),
        _ => Err(BodyFaultKind::NoBranch.at(reader.place)),
    }
}

/// What ends a block.
#[derive(Clone, Copy)]
pub(crate) enum Ending<'a> {
    Elif(&'a [u8]),
    Else,
    End,
    /// The body ends.
    Last,
}

/// A block, and what ends it.
#[derive(Drop)]
struct Part<'a> {
    block: Block,
    ending: Ending<'a>,
}

/// Branches that nothing follows yet.
#[derive(Drop)]
struct Branches {
    place: usize,
    condition: Formula,
    first: Box<Block>,
    second: Option<Box<Block>>,
}

/// Takes lines from the front.
#[derive(Drop)]
struct Reader<'a> {
    alloc: Global,
    names: &'a BodyNames,
    /// The names that stand by themselves: states and constants, then local names.
    operands: Vec<NamedOperand>,
    rest: &'a [Text],
    /// Where the line stands that was taken last.
    place: usize,
}

impl<'a> Reader<'a> {
    // Statements up to what ends the block. Their local names end with it.
    #[cycle(reading)]
    fn statements(&mut self, free: usize) -> Result<Part<'a>, BodyFault>
        ensures same { OnOk result ((self.new.names ≡ self.old.names)
            × (self.new.operands.items ≡ self.old.operands.items)) }
        ensures shorter { IfOk result
            (λ part. length self.new.rest.now + lines_of part.ending ≤ length self.old.rest.now) }
        ensures read { IfOk result (λ part. ReadsBlock self.old.names.now self.old.operands.items free
            self.old.rest.now part.block part.ending self.new.rest.now) }
    {
        let Some(text) = self.take() else {
            return Ok(Part {
                block: Block::End,
                ending: Ending::Last,
            });
        };
        let place = self.place;
        match form_of(text.as_str().as_bytes()) {
            Ok(Form::Elif(condition)) => Ok(ended(Ending::Elif(condition))),
            Ok(Form::Else) => Ok(ended(Ending::Else)),
            Ok(Form::End) => Ok(ended(Ending::End)),
            Ok(Form::Let { name, value }) => self.bind(place, name, value, free),
            Ok(Form::If(condition)) => {
                let condition = placed(place, self.read(condition))?;
                let branches = self.branches(place, place, condition, free)?;
                self.followed(branches, free)
            }
            Ok(Form::When { condition, deed }) => {
                let condition = placed(place, self.read(condition))?;
                let (target, value) = placed(place, self.deed(deed))?;
                let Part { block, ending } = self.statements(free)?;
                let rest = self.boxed(block)?;
                let block = Block::When(place, condition, target, value, rest);
                Ok(Part { block, ending })
            }
            Ok(Form::Plain(deed)) => {
                let (target, value) = placed(place, self.deed(deed))?;
                let Part { block, ending } = self.statements(free)?;
                let rest = self.boxed(block)?;
                let block = Block::Do(place, target, value, rest);
                Ok(Part { block, ending })
            }
            Err(kind) => Err(kind.at(place)),
        }
    }

    // What stands behind a `let`: a name for a value as it is now. What can't change needs no state.
    #[cycle(reading)]
    fn bind(
        &mut self,
        place: usize,
        name: &'a [u8],
        value: &'a [u8],
        free: usize,
    ) -> Result<Part<'a>, BodyFault>
        ensures same { OnOk result ((self.new.names ≡ self.old.names)
            × (self.new.operands.items ≡ self.old.operands.items)) }
        ensures shorter { IfOk result
            (λ part. length self.new.rest.now + lines_of part.ending ≤ length self.old.rest.now) }
        ensures read { IfOk result (λ part. (line : List ℕ) → IsLetLine line name.now value.now
            → ReadsBlock self.old.names.now self.old.operands.items free (line ∷ self.old.rest.now) part.block
            part.ending self.new.rest.now) }
    {
        let count = self.operands.len();
        let name = placed(place, self.new_name(name))?;
        let value = placed(place, self.read(value))?;
        if let Some(operand) = unchanging(&value) {
            self.push_name(name, operand)?;
            let part = self.statements(free)?;
            self.forget_names(count);
            return Ok(part);
        }
        let next = next_free(free, place)?;
        self.push_name(name, Operand::State(free))?;
        let Part { block, ending } = self.statements(next)?;
        self.forget_names(count);
        let rest = self.boxed(block)?;
        let block = Block::Let(place, value, rest);
        Ok(Part { block, ending })
    }

    // The branches from a condition on, up to the `end` of the `if` that opened them; nothing follows them yet.
    #[cycle(reading)]
    fn branches(
        &mut self,
        opened: usize,
        place: usize,
        condition: Formula,
        free: usize,
    ) -> Result<Branches, BodyFault>
        ensures same { OnOk result ((self.new.names ≡ self.old.names)
            × (self.new.operands.items ≡ self.old.operands.items)) }
        ensures shorter { OnOk result (length self.new.rest.now ≤ length self.old.rest.now) }
        ensures read { IfOk result (λ branches. (branches.condition ≡ condition)
            × ReadsBranches self.old.names.now self.old.operands.items free self.old.rest.now branches.first.value
            (unboxed branches.second) self.new.rest.now) }
    {
        let next = next_free(free, place)?;
        let Part { block, ending } = self.statements(next)?;
        let first = self.boxed(block)?;
        match ending {
            Ending::End => Ok(Branches {
                place,
                condition,
                first,
                second: None,
            }),
            Ending::Else => {
                let second = self.last_branch(opened, next)?;
                Ok(Branches {
                    place,
                    condition,
                    first,
                    second: Some(second),
                })
            }
            Ending::Elif(other) => {
                let at = self.place;
                let other = placed(at, self.read(other))?;
                let inner = self.branches(opened, at, other, next)?;
                let rest = self.boxed(Block::End)?;
                let second = self.boxed(joined(inner, rest))?;
                Ok(Branches {
                    place,
                    condition,
                    first,
                    second: Some(second),
                })
            }
            Ending::Last => Err(BodyFaultKind::NoEnd.at(opened)),
        }
    }

    // What stands behind `else`, up to the `end` of the `if` at this place.
    #[cycle(reading)]
    fn last_branch(&mut self, opened: usize, free: usize) -> Result<Box<Block>, BodyFault>
        ensures same { OnOk result ((self.new.names ≡ self.old.names)
            × (self.new.operands.items ≡ self.old.operands.items)) }
        ensures shorter { OnOk result (length self.new.rest.now ≤ length self.old.rest.now) }
        ensures read { IfOk result (λ block. ReadsBlock self.old.names.now self.old.operands.items free
            self.old.rest.now block.value ending.End self.new.rest.now) }
    {
        let Part { block, ending } = self.statements(free)?;
        let second = self.boxed(block)?;
        match ending {
            Ending::End => Ok(second),
            Ending::Last => Err(BodyFaultKind::NoEnd.at(opened)),
            _ => Err(BodyFaultKind::NoBranch.at(self.place)),
        }
    }

    // What follows the branches is read.
    #[cycle(reading)]
    fn followed(&mut self, branches: Branches, free: usize) -> Result<Part<'a>, BodyFault>
        ensures same { OnOk result ((self.new.names ≡ self.old.names)
            × (self.new.operands.items ≡ self.old.operands.items)) }
        ensures shorter { IfOk result
            (λ part. length self.new.rest.now + lines_of part.ending ≤ length self.old.rest.now) }
        ensures read { IfOk result (λ part. (rest : Block)
            × ReadsBlock self.old.names.now self.old.operands.items free self.old.rest.now rest part.ending
            self.new.rest.now
            × IsIf part.block branches.condition branches.first.value (unboxed branches.second) rest) }
    {
        let Part { block, ending } = self.statements(free)?;
        let rest = self.boxed(block)?;
        let block = joined(branches, rest);
        Ok(Part { block, ending })
    }

    fn boxed(&self, block: Block) -> Result<Box<Block>, BodyFault>
        ensures { IfOk result (λ boxed. boxed.value ≡ block) }
    {
        match Box::new(self.alloc, block) {
            Ok(block) => Ok(block),
            Err(_) => Err(BodyFaultKind::Memory.at(0)),
        }
    }

    fn take(&mut self) -> Option<&'a Text>
        ensures same { (self.new.names ≡ self.old.names) × (self.new.operands ≡ self.old.operands) }
        ensures taken { MatchOption result ((self.old.rest.now ≡ []) × (self.new.rest.now ≡ []))
            (λ text. self.old.rest.now ≡ text.now ∷ self.new.rest.now) }
        ensures fewer { IfSome result (λ text. length self.old.rest.now ≡ length self.new.rest.now + 1) }
    {
        match self.rest {
            [text, rest @ ..] => {
                self.rest = rest;
                self.place = self.place.saturating_add(1);
                Some(text)
            }
            [] => None,
        }
    }

    fn push_name(&mut self, name: Text, operand: Operand) -> Result<(), BodyFault>
        ensures same { (self.new.names ≡ self.old.names) × (self.new.rest ≡ self.old.rest) }
        ensures added { OnOk result (self.new.operands.items
            ≡ self.old.operands.items ++ record { name = name; operand = operand } ∷ []) }
    {
        match self.operands.push(NamedOperand { name, operand }) {
            Ok(()) => Ok(()),
            Err(_) => Err(BodyFaultKind::Memory.at(0)),
        }
    }

    // Names that were given after so many aren't there any more.
    fn forget_names(&mut self, count: usize)
        ensures same { (self.new.names ≡ self.old.names) × (self.new.rest ≡ self.old.rest) }
        ensures kept { self.new.operands.items ≡ take count self.old.operands.items }
    {
        self.operands.truncate(count);
    }

    // Where a statement's value goes, and the value.
    fn deed(&self, deed: Deed<'_>) -> Result<(Target, Formula), BodyFaultKind>
        ensures { IfOk result
            (λ parts. IsDeed self.now.names.now self.now.operands.items deed.entry parts.0 parts.1) }
    {
        match deed {
            Deed::Assign { state, value } => {
                let state = known(self.names.states.place_of(state))?;
                Ok((Target::ToState(state), self.read(value)?))
            }
            Deed::Output { port, value } => {
                let port = known(self.names.outputs.place_of(port))?;
                Ok((Target::ToOutput(port), self.read(value)?))
            }
            Deed::Schedule { action, rest } => {
                let _ = known(self.names.actions.place_of(action))?;
                let slot = known(self.names.readable.place_of(action))?;
                let (front, value) = timed(rest);
                let Some(time) = duration(front) else {
                    return Err(BodyFaultKind::NoForm);
                };
                let target = Target::ToAction(slot, Delay::after(time));
                Ok((target, self.read(value)?))
            }
        }
    }

    // An expression, or `A min B` and `A max B`, which body lines have.
    fn read(&self, text: &[u8]) -> Result<Formula, BodyFaultKind>
        ensures { IfOk result
            (λ value. ReadsValue self.now.operands.items self.now.names.now.readable text.now value) }
    {
        let (left, rest) = first_part(text);
        let (word, right) = first_part(rest);
        let Some(combination) = between(word) else {
            return self.expression(text);
        };
        if is_blank(right) || !is_blank(first_part(right).1) {
            return self.expression(text);
        }
        let left = Box::new(self.alloc, self.expression(left)?)?;
        let right = Box::new(self.alloc, self.expression(right)?)?;
        Ok(Formula::Combined(left, combination, right))
    }

    fn expression(&self, text: &[u8]) -> Result<Formula, BodyFaultKind>
        ensures { IfOk result
            (λ value. Reads self.now.operands.items self.now.names.now.readable text.now value) }
    {
        Ok(read_formula(self.alloc, self.known(), text)?)
    }

    fn known(&self) -> Known<'_>
        ensures { (result.operands.now ≡ self.now.operands.items)
            × (result.readable.now ≡ self.now.names.now.readable) }
    {
        Known {
            operands: self.operands.as_slice(),
            readable: &self.names.readable,
        }
    }

    // A name that nothing has yet.
    fn new_name(&self, name: &[u8]) -> Result<Text, BodyFaultKind>
        ensures { IfOk result (λ text. (text ≡ name.now) × IsNew self.now.operands.items name.now) }
    {
        if !is_name(name) {
            return Err(BodyFaultKind::NoForm);
        }
        if self.known().named(name).is_some() {
            return Err(BodyFaultKind::RepeatedName);
        }
        match str::from_utf8(name) {
            Ok(name) => Ok(Text::new(String::from_str(self.alloc, name)?)),
            Err(_) => Err(BodyFaultKind::NoForm),
        }
    }
}

fn joined(branches: Branches, rest: Box<Block>) -> Block
    ensures { IsIf result branches.condition branches.first.value (unboxed branches.second) rest.value }
{
    let Branches {
        place,
        condition,
        first,
        second,
    } = branches;
    match second {
        Some(second) => Block::IfElse(place, condition, first, second, rest),
        None => Block::If(place, condition, first, rest),
    }
}

fn ended(ending: Ending<'_>) -> Part<'_>
    ensures { (result.block ≡ End) × (result.ending ≡ ending.entry) }
{
    Part {
        block: Block::End,
        ending,
    }
}

// The state behind a free one.
fn next_free(free: usize, place: usize) -> Result<usize, BodyFault>
    ensures { IfOk result (λ next. next ≡ free + 1) }
{
    if free >= MOST_STATES {
        return Err(BodyFaultKind::TooManyStates.at(place));
    }
    Ok(free + 1)
}

// An operand that has one value in all of a turn.
fn unchanging(value: &Formula) -> Option<Operand>
    ensures { result ≡ unchanging value.now }
{
    match value {
        Formula::Leaf(Operand::State(_)) => None,
        Formula::Leaf(operand) => Some(*operand),
        _ => None,
    }
}

// What a word combines that stands between two values, as `min` and `max` do in body lines.
fn between(word: &[u8]) -> Option<Combination>
    ensures { IfSome result (λ combination. IsCallText combination word.now) }
{
    match word {
        b"min" => Some(Combination::Least),
        b"max" => Some(Combination::Greatest),
        _ => None,
    }
}

fn known(place: Option<usize>) -> Result<usize, BodyFaultKind>
    ensures { IfOk result (λ there. place ≡ Some there) }
{
    place.ok_or(BodyFaultKind::UnknownName)
}

// What stands in front of the first space, and what follows it.
fn first_part(text: &[u8]) -> (&[u8], &[u8])
    ensures { IsPartBefore text.now result.0.now result.1.now }
{
    let text = after_spaces(text);
    text.split_at(part_len(text))
}

fn part_len(text: &[u8]) -> usize
    ensures value { result ≡ prefix_len (λ c. not (is_space c)) text.now }
    ensures within { result ≤ length text.now }
{
    text.iter().take_while(|c| **c != b' ').count()
}

// The text of a duration that stands in front, if one does, and the expression behind it. A unit behind a number
// belongs to it, unless it is the expression: `0` alone is a duration.
#[tactic(auto, using(crate::proofs::Fronts::split_whole))]
fn timed(text: &[u8]) -> (&[u8], &[u8])
    ensures { text.now ≡ result.0.now ++ result.1.now }
{
    let (_, rest) = next_word(text);
    let (_, behind) = next_word(rest);
    let (both, value) = text.split_at(text.len() - behind.len());
    if !is_blank(value) && duration(both).is_some() {
        return (both, value);
    }
    text.split_at(text.len() - rest.len())
}

// The time that a text as `10 ms` or `0` spells, with any spaces in front.
fn duration(text: &[u8]) -> Option<Time>
    ensures { IfSome result (λ time. (behind : List ℕ) × IsBehindSpaces text.now behind × Spells behind time
        × (time < 2 ^ 62)) }
{
    let Ok(text) = str::from_utf8(after_spaces(text)) else {
        return None;
    };
    let Ok(nanoseconds) = parse_duration(text) else {
        return None;
    };
    Time::new(nanoseconds)
}
