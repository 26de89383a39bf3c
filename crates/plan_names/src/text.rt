ghost use Rattle.std.specs.Prelude.{◌≡◌, ◌<◌, ◌↔◌, IsTrue, IfSome, length, string_bytes};
ghost use Rattle.plan_names.specs.Naming.{place_of};

use crate::named::{Named, place_of};
use std::marker::Model;

/// A text, as a name. Contracts see its bytes.
#[derive(Clone, Debug, Drop)]
pub struct Text {
    text: String,
}

impl Model for Text {
    ghost use Rattle.std.specs.Prelude.{ℕ, List, string_bytes};

    ghost Value = { List ℕ };

    ghost view = { λ t. string_bytes t.text };
}

impl Named for Text {
    ghost name_of = { λ t. t };

    fn name(&self) -> &Text {
        self
    }
}

impl Text {
    pub fn new(text: String) -> Text
        ensures { result ≡ string_bytes text }
    {
        Text { text }
    }

    pub fn as_str(&self) -> &str
        ensures { result.now ≡ self.now }
    {
        self.text.as_str()
    }

    /// Whether this is the name.
    pub fn is(&self, name: &str) -> bool
        ensures { IsTrue result ↔ (self.now ≡ name.now) }
    {
        self.text.as_str() == name
    }

    /// Whether both are one name.
    pub fn is_same(&self, other: &Text) -> bool
        ensures { IsTrue result ↔ (self.now ≡ other.now) }
    {
        self.text.as_str() == other.text.as_str()
    }
}

/// Names, in their order. Contracts see the list of them.
#[derive(Clone, Debug, Drop)]
pub struct Names {
    names: Vec<Text>,
}

impl Model for Names {
    ghost use Rattle.std.specs.Prelude.{ℕ, List};

    ghost Value = { List (List ℕ) };

    ghost view = { λ n. n.names.items };
}

impl Names {
    pub fn new(names: Vec<Text>) -> Names
        ensures { result ≡ names.items }
    {
        Names { names }
    }

    pub fn as_slice(&self) -> &[Text]
        ensures { result.now ≡ self.now }
    {
        self.names.as_slice()
    }

    /// Whether both are the same names, in one order.
    pub fn is_same(&self, other: &Names) -> bool
        ensures { IsTrue result ↔ (self.now ≡ other.now) }
    {
        are_same(self.as_slice(), other.as_slice())
    }

    /// The place of the first of these names that is this one.
    #[tactic(auto, using(crate::proofs::Places::same_names))]
    pub fn place_of(&self, name: &[u8]) -> Option<usize>
        ensures value { result ≡ place_of self.now name.now }
        ensures there { IfSome result (λ place. place < length self.now) }
    {
        place_of(self.as_slice(), name)
    }
}

fn are_same(names: &[Text], others: &[Text]) -> bool
    ensures { IsTrue result ↔ (names.now ≡ others.now) }
{
    match names {
        [first, rest @ ..] => match others {
            [other, others @ ..] => first.is_same(other) && are_same(rest, others),
            [] => false,
        },
        [] => others.is_empty(),
    }
}
