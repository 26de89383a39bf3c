//! What of a federation file's text is changed: bodies, and lists of states.
ghost use Rattle.std.specs.Prelude.{◌≤◌, length};

use crate::body_place::{BodyPlace, body_places};
use crate::change::{Added, Change, Joint};
use crate::fault::ExpandFault;
use crate::names::names_of;
use crate::states::{StatesPlace, states_place};
use expand_bodies::{BodyFault, BodyNames, ExpandedBody, expand_body};
use expand_source::group::{Group, GroupKind};
use expand_source::{SourceFault, SourceFaultKind};
use loadfed_tables::{Section, TableFault};
use plan_names::{Names, Text};
use std::alloc::Global;
use toml::{Table, Value};

/// A federate, as far as its bodies are concerned.
#[derive(Drop)]
pub(crate) struct Federate<'a> {
    names: BodyNames,
    bodies: Vec<Body<'a>>,
    states: StatesPlace,
}

/// The body of a reaction, and where it stands.
#[derive(Drop)]
struct Body<'a> {
    place: BodyPlace<'a>,
    lines: Names,
}

/// The federates of a text, group by group. What is wrong in one, but for its bodies, is left to the loader.
pub(crate) fn federates<'a>(
    alloc: Global,
    groups: &[Group<'a>],
) -> Result<Vec<Federate<'a>>, ExpandFault> {
    let mut federates = Vec::new(alloc);
    let mut at = 0usize;
    for group in groups {
        if group.kind == GroupKind::Federate {
            if let Some(federate) = federate_in(alloc, *group, at)? {
                federates.push(federate)?;
            }
        }
        for item in group.items {
            at = at.saturating_add(item.len());
        }
    }
    Ok(federates)
}

// The federate in a group, before which this many bytes stand.
fn federate_in<'a>(
    alloc: Global,
    group: Group<'a>,
    before: usize,
) -> Result<Option<Federate<'a>>, ExpandFault> {
    let document = match group.document(alloc) {
        Ok(document) => document,
        Err(fault) => return unless_memory(fault.kind),
    };
    let Some(entry) = first_entry(&document) else {
        return Ok(None);
    };
    match read(alloc, group, entry, before) {
        Ok(federate) => Ok(Some(federate)),
        Err(fault) => unless_memory(SourceFaultKind::from(fault)),
    }
}

fn unless_memory<'a>(kind: SourceFaultKind) -> Result<Option<Federate<'a>>, ExpandFault> {
    match kind {
        SourceFaultKind::Memory => Err(ExpandFault::Memory),
        _ => Ok(None),
    }
}

fn first_entry(document: &Table) -> Option<&Table> {
    document
        .get("federate")?
        .as_array()?
        .as_slice()
        .first()?
        .as_table()
}

fn read<'a>(
    alloc: Global,
    group: Group<'a>,
    entry: &Table,
    before: usize,
) -> Result<Federate<'a>, TableFault> {
    let table = Section::new(alloc, entry);
    Ok(Federate {
        names: names_of(alloc, &table)?,
        bodies: bodies(alloc, group, &table, before)?,
        states: states_place(group, before),
    })
}

// The bodies of a federate, where as many of them were found as it has.
fn bodies<'a>(
    alloc: Global,
    group: Group<'a>,
    federate: &Section<'_>,
    before: usize,
) -> Result<Vec<Body<'a>>, TableFault> {
    let places = body_places(alloc, group, before)?;
    let mut bodies = Vec::new(alloc);
    for value in federate.array("reaction")? {
        let reaction = Section::entry(alloc, "reaction", value)?;
        if has_body(value) {
            // As many were found as there are before this one.
            let Some(place) = places.get(bodies.len()) else {
                return Err(TableFault::wrong_shape(alloc, "body"));
            };
            bodies.push(Body {
                place: *place,
                lines: reaction.texts("body")?,
            })?;
        }
    }
    Ok(bodies)
}

fn has_body(reaction: &Value) -> bool {
    match reaction.as_table() {
        Some(table) => table.contains_key("body"),
        None => false,
    }
}

/// What is changed, in the order of places, and of each change how many lines end in what is put in.
#[derive(Drop)]
pub(crate) struct Changes<'f> {
    pub list: Vec<Change<'f>>,
    pub line_ends: Vec<usize>,
}

impl<'f> Changes<'f> {
    fn new(alloc: Global) -> Changes<'f> {
        Changes {
            list: Vec::new(alloc),
            line_ends: Vec::new(alloc),
        }
    }

    fn push(&mut self, change: Change<'f>, line_ends: usize) -> Result<(), ExpandFault> {
        self.list.push(change)?;
        self.line_ends.push(line_ends)?;
        Ok(())
    }

    // Puts a change among those that are there, by its place.
    fn insert(&mut self, change: Change<'f>, line_ends: usize) -> Result<(), ExpandFault> {
        let place = count_before(self.list.as_slice(), change.from);
        let in_line_ends = place.min(self.line_ends.len());
        self.list.insert(place, change)?;
        self.line_ends.insert(in_line_ends, line_ends)?;
        Ok(())
    }
}

// How many of these changes, which are in the order of their places, stand before a place.
fn count_before(changes: &[Change<'_>], place: usize) -> usize
    ensures { result ≤ length changes.now }
{
    changes.partition_point(|change| change.from < place)
}

/// What is changed in these federates. The lines of faults are those of the text.
pub(crate) fn all_changes<'f>(
    alloc: Global,
    federates: &'f [Federate<'_>],
) -> Result<Changes<'f>, ExpandFault> {
    let mut changes = Changes::new(alloc);
    for federate in federates {
        federate.add_changes(alloc, &mut changes)?;
    }
    Ok(changes)
}

impl Federate<'_> {
    // Adds what is changed in this federate.
    fn add_changes<'f>(
        &'f self,
        alloc: Global,
        changes: &mut Changes<'f>,
    ) -> Result<(), ExpandFault> {
        let mut scratch = 0usize;
        for body in &self.bodies {
            let expanded = body.expanded(alloc, &self.names)?;
            scratch = scratch.max(expanded.scratch);
            if !expanded.lines.is_same(&body.lines) {
                let line_ends = expanded.lines.as_slice().len().saturating_add(1);
                changes.push(body.change(&self.names), line_ends)?;
            }
        }
        if scratch > 0 {
            let (change, line_ends) = self.states_change(alloc, scratch)?;
            changes.insert(change, line_ends)?;
        }
        Ok(())
    }

    // This many scratch states are added.
    fn states_change(
        &self,
        alloc: Global,
        count: usize,
    ) -> Result<(Change<'_>, usize), ExpandFault> {
        match self.states {
            StatesPlace::At(place, joint) => {
                let change = Change {
                    from: place,
                    to: place,
                    names: &self.names,
                    added: Added::States(joint, count),
                };
                Ok((change, line_ends_of(joint, count)))
            }
            StatesPlace::Tables(line) => Err(ExpandFault::from(SourceFault {
                line,
                kind: SourceFaultKind::WrongShape(Text::new(String::from_str(alloc, "state")?)),
            })),
        }
    }
}

// How many lines end in so many states that are added.
fn line_ends_of(joint: Joint, count: usize) -> usize {
    match joint {
        Joint::First | Joint::BehindState => 0,
        Joint::BehindComma => count,
        Joint::NoList => count.saturating_add(2),
    }
}

impl Body<'_> {
    // What it becomes.
    fn expanded(&self, alloc: Global, names: &BodyNames) -> Result<ExpandedBody, ExpandFault> {
        match expand_body(alloc, names, self.lines.as_slice()) {
            Ok(body) => Ok(body),
            Err(fault) => Err(ExpandFault::from(BodyFault {
                line: self.place.line_of(fault.line),
                kind: fault.kind,
            })),
        }
    }

    fn change<'f>(&'f self, names: &'f BodyNames) -> Change<'f> {
        Change {
            from: self.place.from,
            to: self.place.to,
            names,
            added: Added::Body(self.lines.as_slice()),
        }
    }
}
