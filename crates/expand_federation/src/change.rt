//! What is changed in a text.

use expand_bodies::BodyNames;
use plan_names::Text;

/// How the states that are added join what stands before them.
#[derive(Clone, Copy, Debug, PartialEq, Eq)]
pub enum Joint {
    /// They are the first in the list.
    First,
    /// They stand behind a state without a comma.
    BehindState,
    /// They stand behind a comma.
    BehindComma,
    /// The federate has no list of states.
    NoList,
}

/// What is put in.
#[derive(Clone, Copy)]
pub enum Added<'a> {
    /// The body that these lines are, expanded.
    Body(&'a [Text]),
    /// This many scratch states.
    States(Joint, usize),
}

/// Something that is put in the place of what stands in a text from one place to another. Places count bytes.
#[derive(Clone, Copy)]
pub struct Change<'a> {
    pub from: usize,
    pub to: usize,
    /// The names of the federate in which it stands.
    pub names: &'a BodyNames,
    pub added: Added<'a>,
}
