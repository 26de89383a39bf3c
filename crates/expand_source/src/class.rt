//! Classes: federates without a name, which stand in the federation as often as they are named.

use crate::fault::{SourceFault, SourceFaultKind, at};
use crate::group::{Group, GroupKind};
use crate::template::class_template;
use crate::token::Token;
use crate::values::{numbers_at, only_entry};
use expand_expressions::NamedOperand;
use plan_names::{Text, is_name};
use std::alloc::Global;
use toml::Table;

/// A class, its parameters, and what stands in each of its federates behind the name.
#[derive(Drop)]
pub(crate) struct Class<'a> {
    pub name: Text,
    pub parameters: Vec<NamedOperand>,
    pub template: Vec<Token<'a>>,
}

/// The classes of a source, no two of one name.
pub(crate) fn classes<'a>(
    alloc: Global,
    groups: &[Group<'a>],
) -> Result<Vec<Class<'a>>, SourceFault> {
    let mut classes = Vec::new(alloc);
    for group in groups {
        if group.kind == GroupKind::Class {
            let (group, _) = group.parted();
            let class = read_class(alloc, group)?;
            at(group.line_of("name"), add(&mut classes, class))?;
        }
    }
    Ok(classes)
}

/// The class of a name.
pub(crate) fn class_named<'c, 'a>(classes: &'c [Class<'a>], name: &str) -> Option<&'c Class<'a>> {
    classes.iter().find(|class| class.name.is(name))
}

fn add<'a>(classes: &mut Vec<Class<'a>>, class: Class<'a>) -> Result<(), SourceFaultKind> {
    if class_named(classes.as_slice(), class.name.as_str()).is_some() {
        return Err(SourceFaultKind::RepeatedClass(class.name));
    }
    classes.push(class)?;
    Ok(())
}

fn read_class<'a>(alloc: Global, group: Group<'a>) -> Result<Class<'a>, SourceFault> {
    let document = group.document(alloc)?;
    let Some(table) = only_entry(&document, "class") else {
        return Err(SourceFaultKind::wrong_shape(alloc, "class").at(group.line()));
    };
    let name = at(group.line_of("name"), name_of(alloc, table))?;
    let mut parameters = Vec::new(alloc);
    if let Some(value) = table.get("parameter") {
        numbers_at(alloc, value, Some(group), &mut parameters)?;
    }
    let template = at(group.line(), class_template(alloc, group))?;
    Ok(Class {
        name,
        parameters,
        template,
    })
}

fn name_of(alloc: Global, table: &Table) -> Result<Text, SourceFaultKind> {
    match table.get("name").and_then(|name| name.as_str()) {
        Some(name) if is_name(name.as_bytes()) => Ok(Text::new(String::from_str(alloc, name)?)),
        _ => Err(SourceFaultKind::wrong_shape(alloc, "name")),
    }
}
