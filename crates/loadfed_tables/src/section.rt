ghost use Rattle.std.specs.Prelude.{◌≡◌, ◌⊎◌, IfOk, IfErr, OnOk, map, option_map, IsTrue, All, ◌↔◌, false};
ghost use Rattle.plan_names.specs.Spelling.{is_name};
ghost use Rattle.toml.specs.Data.{get_member, string, table};
ghost use Rattle.toml.specs.View.{view, table_view};
ghost use Rattle.loadfed_tables.specs.Sections.{members_of};
ghost use Rattle.loadfed_tables.specs.Tables.{is_among, HasOnly, SaysText, SaysNumber, SaysName, SaysPort};
ghost use Rattle.loadfed_tables.specs.Tables.{SaysDuration, MaySay, SaysDurationOrZero, SaysMicrostep, SaysArray};
ghost use Rattle.loadfed_tables.specs.Tables.{SaysTexts, SaysNames};
ghost use Rattle.loadfed_tables.specs.TableFaults.{IsWrongAt, HasUnknownKey};

use crate::data::{as_number, as_table, as_text, as_values};
use crate::fault::TableFault;
use plan_names::{Names, PortName, Text, is_name};
use std::alloc::Global;
use tag::Time;
use tag_text::parse_duration;
use toml::{Table, Value};

/// A table of a file, read key by key. Each fault is `WrongShape` of the key that it is about, or `Memory`.
#[derive(Drop)]
pub struct Section<'a> {
    alloc: Global,
    table: &'a Table,
}

impl<'a> Section<'a> {
    pub fn new(alloc: Global, table: &'a Table) -> Section<'a>
        ensures { members_of result ≡ table_view table.now }
    {
        Section { alloc, table }
    }

    /// The table that a value is, of an array of tables at this key.
    pub fn entry(alloc: Global, key: &str, value: &'a Value) -> Result<Section<'a>, TableFault>
        ensures ok { IfOk result (λ section. view value.now ≡ table (members_of section)) }
        ensures refused { IfErr result
            (λ fault. (fault ≡ TableFault.Memory) ⊎ IsWrongAt key.now (λ inner. view value.now ≡ table inner) fault) }
    {
        match as_table(value) {
            Some(table) => Ok(Section { alloc, table }),
            None => Err(TableFault::wrong_shape(alloc, key)),
        }
    }

    /// Refuses a key that is none of these.
    pub fn has_only(&self, known: &[&str]) -> Result<(), TableFault>
        ensures ok { OnOk result (HasOnly (map (λ k. k.now) known.now) (members_of self.now)) }
        ensures refused { IfErr result
            (λ fault. (fault ≡ TableFault.Memory)
            ⊎ HasUnknownKey (map (λ k. k.now) known.now) (members_of self.now) fault) }
    {
        for key in self.table.keys() {
            if !is_among(known, key.as_str()) {
                return Err(TableFault::wrong_shape(self.alloc, key.as_str()));
            }
        }
        Ok(())
    }

    // The value at a key, if there is one.
    fn value(&self, key: &str) -> Option<&'a Value>
        ensures { option_map (λ value. view value.now) result ≡ get_member key.now (members_of self.now) }
    {
        self.table.get(key)
    }

    /// The text at a key, if there is one.
    pub fn text(&self, key: &str) -> Result<Option<&'a str>, TableFault>
        ensures ok { IfOk result (λ text.
            MaySay SaysText key.now (members_of self.now) (option_map (λ t. t.now) text)) }
        ensures refused { IfErr result
            (λ fault. (fault ≡ TableFault.Memory)
            ⊎ IsWrongAt key.now (MaySay SaysText key.now (members_of self.now)) fault) }
    {
        match self.value(key) {
            None => Ok(None),
            Some(value) => match as_text(value) {
                Some(text) => Ok(Some(text)),
                None => Err(TableFault::wrong_shape(self.alloc, key)),
            },
        }
    }

    /// The text at a key that is needed.
    pub fn needed_text(&self, key: &str) -> Result<&'a str, TableFault>
        ensures ok { IfOk result (λ text. SaysText key.now (members_of self.now) text.now) }
        ensures refused { IfErr result
            (λ fault. (fault ≡ TableFault.Memory) ⊎ IsWrongAt key.now (SaysText key.now (members_of self.now)) fault) }
    {
        match self.text(key)? {
            Some(text) => Ok(text),
            None => Err(TableFault::wrong_shape(self.alloc, key)),
        }
    }

    /// A copy of the text at a key that is needed.
    pub fn copied_text(&self, key: &str) -> Result<Text, TableFault>
        ensures ok { IfOk result (λ text. SaysText key.now (members_of self.now) text) }
        ensures refused { IfErr result
            (λ fault. (fault ≡ TableFault.Memory) ⊎ IsWrongAt key.now (SaysText key.now (members_of self.now)) fault) }
    {
        self.copied(self.needed_text(key)?)
    }

    /// The name at a key that is needed.
    pub fn name(&self, key: &str) -> Result<Text, TableFault>
        ensures ok { IfOk result (λ name. SaysName key.now (members_of self.now) name) }
        ensures refused { IfErr result
            (λ fault. (fault ≡ TableFault.Memory) ⊎ IsWrongAt key.now (SaysName key.now (members_of self.now)) fault) }
    {
        let text = self.needed_text(key)?;
        self.copied_name(key, text)
    }

    /// The port at a key, `FEDERATE.PORT`.
    pub fn port(&self, key: &str) -> Result<PortName, TableFault>
        ensures ok { IfOk result (SaysPort key.now (members_of self.now)) }
        ensures refused { IfErr result
            (λ fault. (fault ≡ TableFault.Memory) ⊎ IsWrongAt key.now (SaysPort key.now (members_of self.now)) fault) }
    {
        let text = self.needed_text(key)?;
        let Some((front, back)) = text.split_once('.') else {
            return Err(TableFault::wrong_shape(self.alloc, key));
        };
        let federate = self.copied_name(key, front)?;
        let port = self.copied_name(key, back)?;
        Ok(PortName { federate, port })
    }

    /// The whole number at a key, if there is one.
    pub fn number(&self, key: &str) -> Result<Option<i64>, TableFault>
        ensures ok { IfOk result (λ number. MaySay SaysNumber key.now (members_of self.now) number) }
        ensures refused { IfErr result
            (λ fault. (fault ≡ TableFault.Memory)
            ⊎ IsWrongAt key.now (MaySay SaysNumber key.now (members_of self.now)) fault) }
    {
        match self.value(key) {
            None => Ok(None),
            Some(value) => match as_number(value) {
                Some(number) => Ok(Some(number)),
                None => Err(TableFault::wrong_shape(self.alloc, key)),
            },
        }
    }

    /// The whole number at a key that is needed.
    pub fn needed_number(&self, key: &str) -> Result<i64, TableFault>
        ensures ok { IfOk result (λ number. SaysNumber key.now (members_of self.now) number) }
        ensures refused { IfErr result
            (λ fault. (fault ≡ TableFault.Memory)
            ⊎ IsWrongAt key.now (SaysNumber key.now (members_of self.now)) fault) }
    {
        match self.number(key)? {
            Some(number) => Ok(number),
            None => Err(TableFault::wrong_shape(self.alloc, key)),
        }
    }

    /// The microstep at a key; without the key it is 0.
    pub fn microstep(&self, key: &str) -> Result<u32, TableFault>
        ensures ok { IfOk result (λ microstep. SaysMicrostep key.now (members_of self.now) microstep) }
        ensures refused { IfErr result
            (λ fault. (fault ≡ TableFault.Memory)
            ⊎ IsWrongAt key.now (SaysMicrostep key.now (members_of self.now)) fault) }
    {
        match self.number(key)? {
            None => Ok(0),
            Some(number) => match u32::try_from(number) {
                Ok(microstep) => Ok(microstep),
                Err(_) => Err(TableFault::wrong_shape(self.alloc, key)),
            },
        }
    }

    /// The duration at a key, if there is one.
    pub fn duration(&self, key: &str) -> Result<Option<Time>, TableFault>
        ensures ok { IfOk result (λ time. MaySay SaysDuration key.now (members_of self.now) time) }
        ensures refused { IfErr result
            (λ fault. (fault ≡ TableFault.Memory)
            ⊎ IsWrongAt key.now (MaySay SaysDuration key.now (members_of self.now)) fault) }
    {
        match self.text(key)? {
            None => Ok(None),
            Some(text) => match parse_duration(text) {
                Ok(nanoseconds) => Ok(Time::new(nanoseconds)),
                Err(_) => Err(TableFault::wrong_shape(self.alloc, key)),
            },
        }
    }

    /// The duration at a key that is needed.
    pub fn needed_duration(&self, key: &str) -> Result<Time, TableFault>
        ensures ok { IfOk result (λ time. SaysDuration key.now (members_of self.now) time) }
        ensures refused { IfErr result
            (λ fault. (fault ≡ TableFault.Memory)
            ⊎ IsWrongAt key.now (SaysDuration key.now (members_of self.now)) fault) }
    {
        match self.duration(key)? {
            Some(time) => Ok(time),
            None => Err(TableFault::wrong_shape(self.alloc, key)),
        }
    }

    /// The duration at a key, in ns; without the key it is 0.
    pub fn nanoseconds(&self, key: &str) -> Result<u64, TableFault>
        ensures ok { IfOk result (λ time. SaysDurationOrZero key.now (members_of self.now) time) }
        ensures refused { IfErr result
            (λ fault. (fault ≡ TableFault.Memory)
            ⊎ IsWrongAt key.now (SaysDurationOrZero key.now (members_of self.now)) fault) }
    {
        match self.duration(key)? {
            Some(time) => Ok(time.nanoseconds()),
            None => Ok(0),
        }
    }

    /// The array at a key; without the key it is empty.
    pub fn array(&self, key: &str) -> Result<&'a [Value], TableFault>
        ensures ok { IfOk result (λ values. SaysArray key.now (members_of self.now) (map view values.now)) }
        ensures refused { IfErr result
            (λ fault. (fault ≡ TableFault.Memory) ⊎ IsWrongAt key.now (SaysArray key.now (members_of self.now)) fault) }
    {
        match self.value(key) {
            None => Ok(&[]),
            Some(value) => match as_values(value) {
                Some(values) => Ok(values),
                None => Err(TableFault::wrong_shape(self.alloc, key)),
            },
        }
    }

    /// The array of names at a key; without the key it is empty.
    pub fn names(&self, key: &str) -> Result<Names, TableFault>
        ensures ok { IfOk result (λ names. SaysNames key.now (members_of self.now) names) }
        ensures refused { IfErr result
            (λ fault. (fault ≡ TableFault.Memory) ⊎ IsWrongAt key.now (SaysNames key.now (members_of self.now)) fault) }
    {
        let names = self.texts(key)?;
        if are_names(names.as_slice()) {
            Ok(names)
        } else {
            Err(TableFault::wrong_shape(self.alloc, key))
        }
    }

    /// The array of texts at a key; without the key it is empty.
    pub fn texts(&self, key: &str) -> Result<Names, TableFault>
        ensures ok { IfOk result (λ texts. SaysTexts key.now (members_of self.now) texts) }
        ensures refused { IfErr result
            (λ fault. (fault ≡ TableFault.Memory) ⊎ IsWrongAt key.now (SaysTexts key.now (members_of self.now)) fault) }
    {
        let mut texts = Vec::new(self.alloc);
        for value in self.array(key)? {
            let text = self.entry_text(key, value)?;
            let copy = self.copied(text)?;
            texts.push(copy)?;
        }
        Ok(Names::new(texts))
    }

    // The text that a value is, of an array of texts at this key.
    fn entry_text(&self, key: &str, value: &'a Value) -> Result<&'a str, TableFault>
        ensures ok { IfOk result (λ text. view value.now ≡ string text.now) }
        ensures refused { IfErr result
            (λ fault. (fault ≡ TableFault.Memory) ⊎ IsWrongAt key.now (λ text. view value.now ≡ string text) fault) }
    {
        match as_text(value) {
            Some(text) => Ok(text),
            None => Err(TableFault::wrong_shape(self.alloc, key)),
        }
    }

    /// A copy of a text that has to be a name.
    pub fn copied_name(&self, key: &str, text: &str) -> Result<Text, TableFault>
        ensures copy { IfOk result (λ name. name ≡ text.now) }
        ensures named { IfOk result (λ name. IsTrue (is_name name)) }
        ensures refused { IfErr result
            (λ fault. (fault ≡ TableFault.Memory)
            ⊎ ((fault ≡ TableFault.WrongShape key.now) × (is_name text.now ≡ false))) }
    {
        if is_name(text.as_bytes()) {
            self.copied(text)
        } else {
            Err(TableFault::wrong_shape(self.alloc, key))
        }
    }

    fn copied(&self, text: &str) -> Result<Text, TableFault>
        ensures copy { IfOk result (λ copy. copy ≡ text.now) }
        ensures refused { IfErr result (λ fault. fault ≡ TableFault.Memory) }
    {
        Ok(Text::new(String::from_str(self.alloc, text)?))
    }
}

fn are_names(texts: &[Text]) -> bool
    ensures { IsTrue result ↔ All (λ text. IsTrue (is_name text)) texts.now }
{
    texts.iter().all(|text| is_name(text.as_str().as_bytes()))
}

fn is_among(known: &[&str], key: &str) -> bool
    ensures { result ≡ is_among (map (λ k. k.now) known.now) key.now }
{
    match known {
        [first, rest @ ..] => key == *first || is_among(rest, key),
        [] => false,
    }
}
