//! The parts of a source, read group by group.

use crate::class::{Class, class_named, classes};
use crate::copying::copy_into;
use crate::fault::{SourceFault, SourceFaultKind, at};
use crate::group::{Group, GroupKind};
use crate::numbers::number;
use crate::part::{Given, Part, Range, Setting};
use crate::template::{closed, plain, push_all, without};
use crate::token::{Token, TokenKind};
use crate::values::{numbers_at, only_entry, setting_of, text_at, without_braces};
use expand_expressions::NamedOperand;
use loadfed_tables::Section;
use plan::limits::{MOST_CONNECTIONS, MOST_FEDERATES};
use plan_names::{Text, is_name};
use reactor_program::Operand;
use std::alloc::Global;
use toml::{Table, Value};

/// The name of a federate's number among those of its entry.
const NUMBER: &str = "i";

/// The parts that groups are, in their order, in a source with these parameters.
pub(crate) fn parts<'a>(
    alloc: Global,
    groups: &[Group<'a>],
    parameters: &'a [NamedOperand],
) -> Result<Vec<Part<'a>>, SourceFault> {
    let mut reader = Reader {
        alloc,
        parameters,
        classes: classes(alloc, groups)?,
        parts: Vec::new(alloc),
        federates: 0,
        connections: 0,
        is_copied: false,
    };
    for group in groups {
        reader.read(*group)?;
    }
    Ok(reader.parts)
}

/// The parameters of a source, but with the values that were given beside it.
pub(crate) fn parameters(
    alloc: Global,
    source: &Table,
    groups: &[Group<'_>],
    given: &[Given],
) -> Result<Vec<NamedOperand>, SourceFault> {
    let mut parameters = Vec::new(alloc);
    if let Some(value) = source.get("parameter") {
        let group = groups
            .iter()
            .find(|group| group.kind == GroupKind::Parameters)
            .or(groups.first())
            .copied();
        numbers_at(alloc, value, group, &mut parameters)?;
    }
    for one in given {
        at(0, give(&mut parameters, one))?;
    }
    Ok(parameters)
}

// Gives a parameter that is there another value.
fn give(parameters: &mut Vec<NamedOperand>, given: &Given) -> Result<(), SourceFaultKind> {
    for parameter in parameters {
        if parameter.name.is_same(&given.name) {
            parameter.operand = Operand::Number(given.value);
            return Ok(());
        }
    }
    Err(SourceFaultKind::UnknownParameter(given.name.clone()?))
}

/// How often a part stands in the federation, and what each copy sets.
#[derive(Drop)]
struct Copies {
    range: Option<Range>,
    settings: Vec<Setting>,
    defaults: Vec<NamedOperand>,
}

impl Copies {
    // Of what has no class.
    fn of(alloc: Global, range: Option<Range>) -> Copies {
        Copies {
            range,
            settings: Vec::new(alloc),
            defaults: Vec::new(alloc),
        }
    }
}

/// Reads groups, and counts what comes of them.
#[derive(Drop)]
struct Reader<'a> {
    alloc: Global,
    parameters: &'a [NamedOperand],
    classes: Vec<Class<'a>>,
    parts: Vec<Part<'a>>,
    federates: usize,
    connections: usize,
    // Whether the last federate may stand several times, or is of a class.
    is_copied: bool,
}

impl<'a> Reader<'a> {
    fn read(&mut self, group: Group<'a>) -> Result<(), SourceFault> {
        if self.is_copied && group.outer() == GroupKind::Federate {
            // It would be a table of the last copy alone.
            return Err(SourceFaultKind::wrong_shape(self.alloc, "federate").at(group.line()));
        }
        if group.kind == GroupKind::Federate {
            self.is_copied = is_special(group, &["class", "count", "with"]);
        }
        let (whole, tail) = group.parted();
        match group.kind {
            GroupKind::Parameters | GroupKind::Class => self.add_plain(tail),
            GroupKind::Federate if self.is_copied => {
                self.add_federates(whole)?;
                self.add_plain(tail)
            }
            GroupKind::Connection if is_special(group, &["for"]) => {
                self.add_connections(whole)?;
                self.add_plain(tail)
            }
            GroupKind::Federate => {
                self.count_federates(group, 1)?;
                self.add_plain(group)
            }
            GroupKind::Connection => {
                self.count_connections(group, 1)?;
                self.add_plain(group)
            }
            GroupKind::Other => self.add_plain(group),
        }
    }

    // What stands once.
    fn add_plain(&mut self, group: Group<'a>) -> Result<(), SourceFault> {
        let template = at(group.line(), plain(self.alloc, group))?;
        self.add(group, template, Copies::of(self.alloc, None))
    }

    fn add_connections(&mut self, group: Group<'a>) -> Result<(), SourceFault> {
        let line = group.line_of("for");
        let table = group.document(self.alloc)?;
        let range = at(line, range_of(self.alloc, self.parameters, &table))?;
        self.count_connections(group, range.count)?;
        let template = at(line, without(self.alloc, group, &["for"]))?;
        self.add(group, template, Copies::of(self.alloc, Some(range)))
    }

    fn add_federates(&mut self, group: Group<'a>) -> Result<(), SourceFault> {
        let table = group.document(self.alloc)?;
        let Some(entry) = only_entry(&table, "federate") else {
            return Err(SourceFaultKind::wrong_shape(self.alloc, "federate").at(group.line()));
        };
        let range = self.copies(group, entry)?;
        let count = match &range {
            Some(range) => range.count,
            None => 1,
        };
        self.count_federates(group, count)?;
        match entry.get("class") {
            Some(class) => self.add_of_class(group, entry, class, range),
            None => self.add_of_itself(group, entry, range),
        }
    }

    // Federates that are alike, without a class.
    fn add_of_itself(
        &mut self,
        group: Group<'a>,
        entry: &Table,
        range: Option<Range>,
    ) -> Result<(), SourceFault> {
        if entry.contains_key("with") {
            return Err(SourceFaultKind::wrong_shape(self.alloc, "with").at(group.line_of("with")));
        }
        let template = at(group.line(), without(self.alloc, group, &["count"]))?;
        self.add(group, template, Copies::of(self.alloc, range))
    }

    // Federates of a class.
    fn add_of_class(
        &mut self,
        group: Group<'a>,
        entry: &Table,
        class: &Value,
        range: Option<Range>,
    ) -> Result<(), SourceFault> {
        let alloc = self.alloc;
        let line = group.line_of("class");
        known_keys(alloc, group, entry)?;
        let class = at(line, class_of(alloc, self.classes.as_slice(), class))?;
        let copies = Copies {
            range,
            settings: settings(alloc, group, entry, class)?,
            defaults: at(line, copied(alloc, class.parameters.as_slice()))?,
        };
        let template = at(line, template_of(alloc, group, class))?;
        self.add(group, template, copies)
    }

    // The numbers of a federate's copies; None where it stands once.
    fn copies(&self, group: Group<'a>, entry: &Table) -> Result<Option<Range>, SourceFault> {
        let Some(value) = entry.get("count") else {
            return Ok(None);
        };
        let range = at(
            group.line_of("count"),
            counted(self.alloc, self.parameters, value),
        )?;
        Ok(Some(range))
    }

    fn count_federates(&mut self, group: Group<'a>, count: usize) -> Result<(), SourceFault> {
        self.federates = self.federates.saturating_add(count);
        if self.federates > MOST_FEDERATES {
            return Err(SourceFaultKind::TooMany.at(group.line_of("count")));
        }
        Ok(())
    }

    fn count_connections(&mut self, group: Group<'a>, count: usize) -> Result<(), SourceFault> {
        self.connections = self.connections.saturating_add(count);
        if self.connections > MOST_CONNECTIONS {
            return Err(SourceFaultKind::TooMany.at(group.line_of("for")));
        }
        Ok(())
    }

    fn add(
        &mut self,
        group: Group<'a>,
        template: Vec<Token<'a>>,
        copies: Copies,
    ) -> Result<(), SourceFault> {
        let line = group.line();
        let part = Part {
            line,
            template,
            range: copies.range,
            settings: copies.settings,
            defaults: copies.defaults,
            parameters: self.parameters,
        };
        at(line, push_part(&mut self.parts, part))
    }
}

fn push_part<'a>(parts: &mut Vec<Part<'a>>, part: Part<'a>) -> Result<(), SourceFaultKind> {
    parts.push(part)?;
    Ok(())
}

// Whether a table has one of the keys that no federation file has.
fn is_special(group: Group<'_>, keys: &[&str]) -> bool {
    keys.iter().any(|key| group.item_of(key).is_some())
}

fn copied(alloc: Global, names: &[NamedOperand]) -> Result<Vec<NamedOperand>, SourceFaultKind> {
    let mut copy = Vec::new(alloc);
    copy_into(&mut copy, names)?;
    Ok(copy)
}

// The keys of a federate of a class.
fn known_keys(alloc: Global, group: Group<'_>, entry: &Table) -> Result<(), SourceFault> {
    match Section::new(alloc, entry).has_only(&["class", "name", "count", "with"]) {
        Ok(()) => Ok(()),
        Err(fault) => {
            let kind = SourceFaultKind::from(fault);
            let line = match &kind {
                SourceFaultKind::WrongShape(key) => group.line_of(key.as_str()),
                _ => group.line(),
            };
            Err(kind.at(line))
        }
    }
}

fn class_of<'c, 'a>(
    alloc: Global,
    classes: &'c [Class<'a>],
    value: &Value,
) -> Result<&'c Class<'a>, SourceFaultKind> {
    let name = match value.as_str() {
        Some(name) if is_name(name.as_bytes()) => name,
        _ => return Err(SourceFaultKind::wrong_shape(alloc, "class")),
    };
    match class_named(classes, name) {
        Some(class) => Ok(class),
        None => Err(SourceFaultKind::UnknownClass(Text::new(String::from_str(alloc, name)?))),
    }
}

// What each federate of an entry sets: parameters of its class alone.
fn settings(
    alloc: Global,
    group: Group<'_>,
    entry: &Table,
    class: &Class<'_>,
) -> Result<Vec<Setting>, SourceFault> {
    let mut settings = Vec::new(alloc);
    let table = match entry.get("with") {
        None => return Ok(settings),
        Some(Value::Table(table)) => table,
        Some(_) => {
            return Err(SourceFaultKind::wrong_shape(alloc, "with").at(group.line_of("with")));
        }
    };
    for name in table.keys() {
        let name = name.as_str();
        let line = match group.item_below(b"federate.with", name) {
            Some(item) => item.line(),
            None => group.line_of("with"),
        };
        let setting = at(line, one_setting(alloc, table, name, class, line))?;
        at(line, push_setting(&mut settings, setting))?;
    }
    Ok(settings)
}

fn push_setting(settings: &mut Vec<Setting>, setting: Setting) -> Result<(), SourceFaultKind> {
    settings.push(setting)?;
    Ok(())
}

fn one_setting(
    alloc: Global,
    table: &Table,
    name: &str,
    class: &Class<'_>,
    line: usize,
) -> Result<Setting, SourceFaultKind> {
    if !class.parameters.iter().any(|known| known.name.is(name)) {
        return Err(SourceFaultKind::UnknownParameter(Text::new(String::from_str(alloc, name)?)));
    }
    let Some(value) = table.get(name) else {
        return Err(SourceFaultKind::wrong_shape(alloc, name));
    };
    Ok(Setting {
        line,
        name: Text::new(String::from_str(alloc, name)?),
        expression: setting_of(alloc, name, value)?,
    })
}

// The table of a federate of a class: its name, and what the class says.
fn template_of<'a>(
    alloc: Global,
    group: Group<'a>,
    class: &Class<'a>,
) -> Result<Vec<Token<'a>>, SourceFaultKind> {
    let name = match group.item_of("name") {
        Some(item) => item.quoted(),
        None => None,
    };
    let Some(name) = name else {
        return Err(SourceFaultKind::wrong_shape(alloc, "name"));
    };
    let line = name.line;
    let mut template = Vec::new(alloc);
    template.push(Token {
        kind: TokenKind::Plain,
        line,
        text: b"[[federate]]\nname = ",
    })?;
    template.push(name)?;
    template.push(Token {
        kind: TokenKind::LineEnd,
        line,
        text: b"\n",
    })?;
    push_all(&mut template, class.template.as_slice())?;
    closed(template)
}

// The numbers of so many copies.
fn counted(
    alloc: Global,
    parameters: &[NamedOperand],
    value: &Value,
) -> Result<Range, SourceFaultKind> {
    let expression = setting_of(alloc, "count", value)?;
    let count = number(alloc, parameters, expression.as_str().as_bytes())?;
    let Ok(count) = usize::try_from(count) else {
        return Err(SourceFaultKind::wrong_shape(alloc, "count"));
    };
    Ok(Range {
        name: Text::new(String::from_str(alloc, NUMBER)?),
        first: 0,
        count,
    })
}

// The range of a connection.
fn range_of(
    alloc: Global,
    parameters: &[NamedOperand],
    table: &Table,
) -> Result<Range, SourceFaultKind> {
    let Some(entry) = only_entry(table, "connection") else {
        return Err(SourceFaultKind::wrong_shape(alloc, "connection"));
    };
    let text = text_at(alloc, entry, "for")?;
    without_braces(text)?;
    let Some((name, bounds)) = text.split_once(" in ") else {
        return Err(SourceFaultKind::BadRange);
    };
    let Some((first, last)) = bounds.split_once("..") else {
        return Err(SourceFaultKind::BadRange);
    };
    let name = name.trim();
    if !is_name(name.as_bytes()) {
        return Err(SourceFaultKind::BadRange);
    }
    let first = number(alloc, parameters, first.as_bytes())?;
    let last = number(alloc, parameters, last.as_bytes())?;
    Ok(Range {
        name: Text::new(String::from_str(alloc, name)?),
        first,
        count: count_between(first, last)?,
    })
}

// How many numbers there are from the first to the last, both included.
fn count_between(first: i64, last: i64) -> Result<usize, SourceFaultKind> {
    if last < first {
        return Ok(0);
    }
    let Some(behind) = last.checked_sub(first) else {
        return Err(SourceFaultKind::TooMany);
    };
    match usize::try_from(behind) {
        Ok(behind) if behind < MOST_CONNECTIONS => Ok(behind + 1),
        _ => Err(SourceFaultKind::TooMany),
    }
}
