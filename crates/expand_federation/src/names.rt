//! What the bodies of a federate may name.
ghost use Rattle.std.specs.Prelude.{◌≡◌, ◌++◌, codes, OnOk, IfOk};
ghost use Rattle.std.specs.List.{list_any};
ghost use Rattle.loadfed_tables.specs.Sections.{members_of};
ghost use Rattle.loadfed.specs.Shape.{has_startup};
ghost use Rattle.expand_federation.specs.Bodies.{SaysNamed, SaysTriggered, startup_of, AreReadable, AreNamesOf};

use expand_bodies::BodyNames;
use loadfed_tables::{Section, TableFault};
use plan_names::{Names, Text};
use std::alloc::{AllocError, Global};

/// The names in a federate's table. Numbers of a source are in braces, so there are no constants.
pub(crate) fn names_of(alloc: Global, federate: &Section<'_>) -> Result<BodyNames, TableFault>
    ensures { IfOk result (AreNamesOf (members_of federate.now)) }
{
    let states = entry_names(alloc, federate, "state")?;
    let actions = federate.names("actions")?;
    let readable = readable(alloc, federate, &actions)?;
    let outputs = federate.names("outputs")?;
    Ok(BodyNames {
        states,
        readable,
        outputs,
        actions,
        constants: Vec::new(alloc),
    })
}

// What may stand after `in.` and `has.`.
fn readable(alloc: Global, federate: &Section<'_>, actions: &Names) -> Result<Names, TableFault>
    ensures { IfOk result (AreReadable (members_of federate.now) actions.now) }
{
    let inputs = federate.names("inputs")?;
    let timers = entry_names(alloc, federate, "timers")?;
    let physical = federate.names("physical")?;
    let triggers = triggers(alloc, federate)?;
    let mut names = Vec::new(alloc);
    push_all(&mut names, &inputs)?;
    push_all(&mut names, &timers)?;
    push_all(&mut names, actions)?;
    push_all(&mut names, &physical)?;
    push_startup(alloc, &mut names, triggers.as_slice())?;
    Ok(Names::new(names))
}

fn push_all(names: &mut Vec<Text>, more: &Names) -> Result<(), AllocError>
    ensures { OnOk result (names.new.items ≡ names.old.items ++ more.now) }
{
    for name in more.as_slice() {
        let name = name.clone()?;
        names.push(name)?;
    }
    Ok(())
}

fn push_startup(alloc: Global, names: &mut Vec<Text>, triggers: &[Names]) -> Result<(), AllocError>
    ensures { OnOk result (names.new.items ≡ names.old.items ++ startup_of triggers.now) }
{
    if is_started(triggers) {
        names.push(Text::new(String::from_str(alloc, "startup")?))?;
    }
    Ok(())
}

// The names of the tables in an array of them.
fn entry_names(alloc: Global, federate: &Section<'_>, key: &str) -> Result<Names, TableFault>
    ensures { IfOk result (SaysNamed key.now (members_of federate.now)) }
{
    let mut names = Vec::new(alloc);
    for value in federate.array(key)? {
        let entry = Section::entry(alloc, key, value)?;
        let name = entry.name("name")?;
        names.push(name)?;
    }
    Ok(Names::new(names))
}

// The triggers of each reaction.
fn triggers(alloc: Global, federate: &Section<'_>) -> Result<Vec<Names>, TableFault>
    ensures { IfOk result (λ triggers. SaysTriggered (members_of federate.now) triggers.items) }
{
    let mut triggers = Vec::new(alloc);
    for value in federate.array("reaction")? {
        let reaction = Section::entry(alloc, "reaction", value)?;
        let own = reaction.texts("triggers")?;
        triggers.push(own)?;
    }
    Ok(triggers)
}

// Whether a reaction is triggered by the start, where these are the triggers of each.
fn is_started(triggers: &[Names]) -> bool
    ensures { result ≡ list_any has_startup triggers.now }
{
    triggers.iter().any(|names| has_startup(names.as_slice()))
}

fn has_startup(triggers: &[Text]) -> bool
    ensures { result ≡ has_startup triggers.now }
{
    triggers.iter().any(|name| name.as_str() == "startup")
}
