//! Values in the tables of a source that no federation file has.

use crate::fault::{SourceFault, SourceFaultKind};
use crate::group::Group;
use expand_expressions::NamedOperand;
use plan_names::{Text, is_name};
use reactor_program::Operand;
use std::alloc::Global;
use toml::{Table, Value};

/// The first table of an array of them.
pub(crate) fn only_entry<'t>(table: &'t Table, key: &str) -> Option<&'t Table> {
    table.get(key)?.as_array()?.as_slice().first()?.as_table()
}

/// The text at a key.
pub(crate) fn text_at<'t>(
    alloc: Global,
    table: &'t Table,
    key: &str,
) -> Result<&'t str, SourceFaultKind> {
    match table.get(key) {
        Some(Value::String(text)) => Ok(text.as_str()),
        _ => Err(SourceFaultKind::wrong_shape(alloc, key)),
    }
}

/// The expression that a value is: a number, or a text.
pub(crate) fn setting_of(alloc: Global, key: &str, value: &Value) -> Result<Text, SourceFaultKind> {
    match value {
        Value::Integer(number) => Ok(Text::new(format!(in alloc; "{number}")?)),
        Value::String(text) => {
            without_braces(text.as_str())?;
            Ok(Text::new(String::from_str(alloc, text.as_str())?))
        }
        _ => Err(SourceFaultKind::wrong_shape(alloc, key)),
    }
}

/// Refuses braces, as an expression stands without them here.
pub(crate) fn without_braces(text: &str) -> Result<(), SourceFaultKind> {
    if text.as_bytes().iter().all(|c| *c != b'{' && *c != b'}') {
        Ok(())
    } else {
        Err(SourceFaultKind::NeedlessBraces)
    }
}

/// Adds the numbers of a table, by their names. The group is where the table stands.
pub(crate) fn numbers_at(
    alloc: Global,
    value: &Value,
    group: Option<Group<'_>>,
    numbers: &mut Vec<NamedOperand>,
) -> Result<(), SourceFault> {
    let Some(table) = value.as_table() else {
        return Err(SourceFaultKind::wrong_shape(alloc, "parameter").at(line_of(
            group,
            "parameter",
        )));
    };
    for name in table.keys() {
        let name = name.as_str();
        if let Err(kind) = number_at(alloc, table, name, numbers) {
            return Err(kind.at(line_of(group, name)));
        }
    }
    Ok(())
}

// The line of a parameter: its own, or that of a table `parameter` within a line.
fn line_of(group: Option<Group<'_>>, name: &str) -> usize {
    let Some(group) = group else {
        return 0;
    };
    let own = group.item_below(b"parameter", name);
    match own.or(group.item_below(b"class.parameter", name)) {
        Some(item) => item.line(),
        None => group.line_of("parameter"),
    }
}

fn number_at(
    alloc: Global,
    table: &Table,
    name: &str,
    numbers: &mut Vec<NamedOperand>,
) -> Result<(), SourceFaultKind> {
    match table.get(name) {
        Some(Value::Integer(number)) if is_name(name.as_bytes()) => {
            numbers.push(NamedOperand {
                name: Text::new(String::from_str(alloc, name)?),
                operand: Operand::Number(*number),
            })?;
            Ok(())
        }
        _ => Err(SourceFaultKind::wrong_shape(alloc, name)),
    }
}
