//! Federates by name, and who of them is awaited.
use plan_names::Text;
use std::fmt;
use wires_hosts::Awaited;

/// The federate of this number, of those with these names.
#[derive(Drop)]
pub(crate) struct FederateName<'a> {
    pub names: &'a [Text],
    pub number: u16,
}

impl fmt::Display for FederateName<'_> {
    ghost use Rattle.std.specs.Prelude.{Some};
    ghost use Rattle.fedrun_watch.specs.Awaited.{federate_text};

    ghost output = { λ federate. Some (federate_text federate.names.now federate.number) };

    fn fmt<W: fmt::Write>(&self, f: &mut fmt::Formatter<W>) -> fmt::Result {
        let number = self.number;
        match self.names.get(usize::from(number)) {
            Some(name) => {
                let name = name.as_str();
                write!(f, "{name}")
            }
            None => write!(f, "federate {number}"),
        }
    }
}

// How many more there are, if some are.
#[derive(Drop)]
struct More(u16);

impl fmt::Display for More {
    ghost use Rattle.std.specs.Prelude.{Some};
    ghost use Rattle.fedrun_watch.specs.Awaited.{more_text};

    ghost output = { λ more. Some (more_text more.0) };

    fn fmt<W: fmt::Write>(&self, f: &mut fmt::Formatter<W>) -> fmt::Result {
        let count = self.0;
        if count == 0 {
            write!(f, "")
        } else {
            write!(f, " and {count} more")
        }
    }
}

/// Who is awaited, with this in front of it; or that nobody is.
#[derive(Drop)]
pub(crate) struct First<'a> {
    pub names: &'a [Text],
    pub front: &'static str,
    pub all: &'static str,
    pub first: Option<u16>,
    pub more: u16,
}

impl fmt::Display for First<'_> {
    ghost use Rattle.std.specs.Prelude.{Some};
    ghost use Rattle.fedrun_watch.specs.Awaited.{first_text};

    ghost output = { λ f. Some (first_text f.names.now f.front.now f.all.now f.first f.more) };

    fn fmt<W: fmt::Write>(&self, f: &mut fmt::Formatter<W>) -> fmt::Result {
        let front = self.front;
        let all = self.all;
        match self.first {
            None => write!(f, "{all}"),
            Some(number) => {
                let federate = FederateName {
                    names: self.names,
                    number,
                };
                let more = More(self.more);
                write!(f, "{front}{federate}{more}")
            }
        }
    }
}

/// How many federates are connected, and who isn't.
#[derive(Drop)]
pub(crate) struct AwaitedText<'a> {
    pub names: &'a [Text],
    pub awaited: Awaited,
}

impl fmt::Display for AwaitedText<'_> {
    ghost use Rattle.std.specs.Prelude.{Some};
    ghost use Rattle.fedrun_watch.specs.Awaited.{awaited_text};

    ghost output = { λ text. Some (awaited_text text.names.now text.awaited) };

    fn fmt<W: fmt::Write>(&self, f: &mut fmt::Formatter<W>) -> fmt::Result {
        let present = self.awaited.present;
        let federates = self.awaited.federates;
        let first = First {
            names: self.names,
            front: ", waits for ",
            all: ": all are there",
            first: self.awaited.first,
            more: self.awaited.more,
        };
        write!(f, "{present} of {federates} connected{first}")
    }
}

/// Who is awaited, if anybody is.
#[derive(Drop)]
pub(crate) struct Waits<'a> {
    pub names: &'a [Text],
    pub awaited: Awaited,
}

impl fmt::Display for Waits<'_> {
    ghost use Rattle.std.specs.Prelude.{Some, codes};
    ghost use Rattle.fedrun_watch.specs.Awaited.{first_text};

    ghost output = { λ w. Some
        (first_text w.names.now (codes ", waits for ") (codes "") w.awaited.first w.awaited.more) };

    fn fmt<W: fmt::Write>(&self, f: &mut fmt::Formatter<W>) -> fmt::Result {
        let first = First {
            names: self.names,
            front: ", waits for ",
            all: "",
            first: self.awaited.first,
            more: self.awaited.more,
        };
        write!(f, "{first}")
    }
}
