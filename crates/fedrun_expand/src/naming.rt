//! What a file is called that is saved for some values, and how it begins.
use expand_source::Given;
use std::fmt;

/// The name of the file for this value, in this folder.
#[derive(Drop)]
pub(crate) struct FileName<'a> {
    pub folder: &'a str,
    pub value: &'a Given,
}

impl fmt::Display for FileName<'_> {
    ghost use Rattle.std.specs.Prelude.{Some};
    ghost use Rattle.fedrun_expand.specs.Saved.{file_name};

    ghost output = { λ name. Some (file_name name.folder.now name.value.now) };

    fn fmt<W: fmt::Write>(&self, f: &mut fmt::Formatter<W>) -> fmt::Result {
        let folder = self.folder;
        let value = ValueText(self.value);
        write!(f, "{folder}/{value}.toml")
    }
}

/// The first line of a file, a comment: the values for which it is.
#[derive(Drop)]
pub(crate) struct ValuesComment<'a>(pub &'a [Given]);

impl fmt::Display for ValuesComment<'_> {
    ghost use Rattle.std.specs.Prelude.{Some};
    ghost use Rattle.fedrun_expand.specs.Saved.{comment_text};

    ghost output = { λ comment. Some (comment_text comment.0.now) };

    fn fmt<W: fmt::Write>(&self, f: &mut fmt::Formatter<W>) -> fmt::Result {
        let values = Values(self.0);
        write!(f, "#{values}\n")
    }
}

// The values alone.
#[derive(Drop)]
struct Values<'a>(&'a [Given]);

impl fmt::Display for Values<'_> {
    ghost use Rattle.std.specs.Prelude.{Some, flat_map};
    ghost use Rattle.fedrun_expand.specs.Saved.{spaced_value};

    ghost output = { λ values. Some (flat_map spaced_value values.0.now) };

    fn fmt<W: fmt::Write>(&self, f: &mut fmt::Formatter<W>) -> fmt::Result {
        let values = self.0;
        for value in values {
            let value = ValueText(value);
            write!(f, " {value}")?;
        }
        Ok(())
    }
}

/// A parameter's value, as it is given.
#[derive(Drop)]
pub(crate) struct ValueText<'a>(pub &'a Given);

impl fmt::Display for ValueText<'_> {
    ghost use Rattle.std.specs.Prelude.{Some};
    ghost use Rattle.fedrun_expand.specs.Saved.{value_text};

    ghost output = { λ value. Some (value_text value.0.now) };

    fn fmt<W: fmt::Write>(&self, f: &mut fmt::Formatter<W>) -> fmt::Result {
        let name = self.0.name.as_str();
        let value = self.0.value;
        write!(f, "{name}={value}")
    }
}
