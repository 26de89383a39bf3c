//! Values of a source's parameters, as words give them.

/// The most values that one parameter is given in turn.
pub const MOST_VALUES: usize = 1000;

/// What a parameter is to be, as `gain=3`.
#[derive(Clone, Copy, Debug, PartialEq, Eq)]
pub struct GivenValue<'a> {
    pub name: &'a str,
    pub value: i64,
}

/// What a parameter is to be in turn, as `gain in 1..10`: this many numbers from the first one on.
#[derive(Clone, Copy, Debug, PartialEq, Eq)]
pub struct ValueRange<'a> {
    pub name: &'a str,
    pub first: i64,
    pub count: usize,
}

/// The value that a word gives a parameter.
pub fn given_value(word: &str) -> Option<GivenValue<'_>> {
    let (name, value) = word.split_once('=')?;
    let value = value.parse::<i64>().ok()?;
    if name.is_empty() {
        return None;
    }
    Some(GivenValue { name, value })
}

/// The values that a word gives a parameter in turn: one at least, and `MOST_VALUES` at most.
pub fn value_range(word: &str) -> Option<ValueRange<'_>> {
    let (name, bounds) = word.split_once(" in ")?;
    let (first, last) = bounds.split_once("..")?;
    let name = name.trim();
    let first = first.trim().parse::<i64>().ok()?;
    let last = last.trim().parse::<i64>().ok()?;
    let behind = usize::try_from(last.checked_sub(first)?).ok()?;
    if name.is_empty() || behind >= MOST_VALUES {
        return None;
    }
    Some(ValueRange {
        name,
        first,
        count: behind + 1,
    })
}
