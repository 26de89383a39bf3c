//! What is put in, as text.
ghost use Rattle.std.specs.Prelude.{◌≡◌, IfOk, string_bytes};
ghost use Rattle.expand_federation.specs.Changes.{body_text, states_text};
ghost use Rattle.expand_federation.specs.Changes.{list_front, list_end, before_state, behind_state};

use crate::change::Joint;
use plan_names::Text;
use std::alloc::{AllocError, Global};
use std::fmt;

/// The lines of a body, each on a line of its own.
pub(crate) fn body_text(alloc: Global, lines: &[Text]) -> Result<String, AllocError>
    ensures { IfOk result (λ text. string_bytes text ≡ body_text lines.now) }
{
    let printed = BodyText(lines);
    Ok(format!(in alloc; "{printed}")?)
}

/// States that are 0 at first, joined to what stands before them.
pub(crate) fn states_text(alloc: Global, joint: Joint, names: &[Text]) -> Result<String, AllocError>
    ensures { IfOk result (λ text. string_bytes text ≡ states_text joint names.now) }
{
    let printed = StatesText { joint, names };
    Ok(format!(in alloc; "{printed}")?)
}

#[derive(Drop)]
struct BodyText<'a>(&'a [Text]);

impl fmt::Display for BodyText<'_> {
    ghost use Rattle.std.specs.Prelude.{Some};
    ghost use Rattle.expand_federation.specs.Changes.{body_text};

    ghost output = { λ body. Some (body_text body.0.now) };

    fn fmt<W: fmt::Write>(&self, f: &mut fmt::Formatter<W>) -> fmt::Result {
        let lines = Lines(self.0);
        write!(f, "{lines}\n")
    }
}

// The lines alone.
#[derive(Drop)]
struct Lines<'a>(&'a [Text]);

impl fmt::Display for Lines<'_> {
    ghost use Rattle.std.specs.Prelude.{Some, flat_map};
    ghost use Rattle.expand_federation.specs.Changes.{line_text};

    ghost output = { λ lines. Some (flat_map line_text lines.0.now) };

    fn fmt<W: fmt::Write>(&self, f: &mut fmt::Formatter<W>) -> fmt::Result {
        let lines = self.0;
        for line in lines {
            let line = line.as_str();
            write!(f, "\n  \"{line}\",")?;
        }
        Ok(())
    }
}

#[derive(Drop)]
struct StatesText<'a> {
    joint: Joint,
    names: &'a [Text],
}

impl fmt::Display for StatesText<'_> {
    ghost use Rattle.std.specs.Prelude.{Some};
    ghost use Rattle.expand_federation.specs.Changes.{states_text};

    ghost output = { λ states. Some (states_text states.joint states.names.now) };

    fn fmt<W: fmt::Write>(&self, f: &mut fmt::Formatter<W>) -> fmt::Result {
        let front = list_front(self.joint);
        let states = States {
            joint: self.joint,
            names: self.names,
        };
        let end = list_end(self.joint);
        write!(f, "{front}{states}{end}")
    }
}

// The states alone.
#[derive(Drop)]
struct States<'a> {
    joint: Joint,
    names: &'a [Text],
}

impl fmt::Display for States<'_> {
    ghost use Rattle.std.specs.Prelude.{Some, flat_map};
    ghost use Rattle.expand_federation.specs.Changes.{state_text};

    ghost output = { λ states. Some (flat_map (state_text states.joint) states.names.now) };

    fn fmt<W: fmt::Write>(&self, f: &mut fmt::Formatter<W>) -> fmt::Result {
        let joint = self.joint;
        let names = self.names;
        for name in names {
            let state = State { joint, name };
            write!(f, "{state}")?;
        }
        Ok(())
    }
}

#[derive(Drop)]
struct State<'a> {
    joint: Joint,
    name: &'a Text,
}

impl fmt::Display for State<'_> {
    ghost use Rattle.std.specs.Prelude.{Some};
    ghost use Rattle.expand_federation.specs.Changes.{state_text};

    ghost output = { λ state. Some (state_text state.joint state.name.now) };

    #[tactic(auto, unfolding(crate::specs::Changes::state_text))]
    fn fmt<W: fmt::Write>(&self, f: &mut fmt::Formatter<W>) -> fmt::Result {
        let before = before_state(self.joint);
        let name = self.name.as_str();
        let behind = behind_state(self.joint);
        write!(f, "{before}{{ name = \"{name}\", value = 0 }}{behind}")
    }
}

fn list_front(joint: Joint) -> &'static str
    ensures { result.now ≡ list_front joint }
{
    match joint {
        Joint::NoList => "state = [",
        Joint::First | Joint::BehindState | Joint::BehindComma => "",
    }
}

fn list_end(joint: Joint) -> &'static str
    ensures { result.now ≡ list_end joint }
{
    match joint {
        Joint::NoList => "\n]\n",
        Joint::First | Joint::BehindState | Joint::BehindComma => "",
    }
}

fn before_state(joint: Joint) -> &'static str
    ensures { result.now ≡ before_state joint }
{
    match joint {
        Joint::First => " ",
        Joint::BehindState => ", ",
        Joint::BehindComma | Joint::NoList => "\n  ",
    }
}

fn behind_state(joint: Joint) -> &'static str
    ensures { result.now ≡ behind_state joint }
{
    match joint {
        Joint::BehindState => "",
        Joint::First | Joint::BehindComma | Joint::NoList => ",",
    }
}
