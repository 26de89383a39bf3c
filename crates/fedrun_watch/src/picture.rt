//! The lines on a terminal, one for each federate, which are drawn over those of the look before.
ghost use Rattle.std.specs.Prelude.{◌≡◌, IfSome, take, flat_map};
ghost use Rattle.fedrun_watch.specs.Picture.{picture_text, row_line, row_text};

use crate::awaited::FederateName;
use crate::seconds::Tenths;
use crate::standings::TagOrNone;
use fedrun_words::print_text;
use plan_names::Text;
use std::alloc::Global;
use std::fmt;
use tag::Time;
use wires_hosts::{Reached, Standing};

/// So many columns a federate's line has, at most, behind the first two: of 80 none is in the last, whatever the
/// terminal does there.
const COLUMNS: usize = 77;

/// The terminal writes no line on into the next one: what doesn't fit is left out, and so lines can be counted.
const CUT: &str = "\x1b[?7l";

/// It does so again.
const UNCUT: &str = "\x1b[?7h";

/// To the beginning of the line; all of it and below is wiped.
const WIPED: &str = "\r\x1b[J";

/// What stands before the number of lines by which the cursor goes up.
const UP: &str = "\x1b[";

/// The way back over this many lines, which are wiped.
#[derive(Drop)]
pub(crate) struct Wiped(pub usize);

impl fmt::Display for Wiped {
    ghost use Rattle.std.specs.Prelude.{Some};
    ghost use Rattle.fedrun_watch.specs.Picture.{wiped_text};

    ghost output = { λ wiped. Some (wiped_text wiped.0) };

    fn fmt<W: fmt::Write>(&self, f: &mut fmt::Formatter<W>) -> fmt::Result {
        let count = self.0;
        let up = UP;
        let wiped = WIPED;
        if count == 0 {
            write!(f, "")
        } else {
            write!(f, "{up}{count}A{wiped}")
        }
    }
}

/// The lines of federates with these names, of a run that is over at this time, in place of so many that are there; and
/// one that says how many federates have none, if some have none. None where there is no memory for them.
pub(crate) fn picture_of(
    alloc: Global,
    before: usize,
    names: &[Text],
    stop: &Option<Time>,
    rows: &[Standing],
    more: usize,
) -> Option<Vec<u8>>
    ensures { IfSome result (λ picture. picture.items ≡ picture_text before names.now stop.now rows.now more) }
{
    let lines = lines_of(alloc, names, stop, rows)?;
    let mut picture = Vec::new(alloc);
    if !print_text(&mut picture, &Wiped(before)) {
        return None;
    }
    picture.extend_from_slice(CUT.as_bytes()).ok()?;
    picture.extend_from_slice(lines.as_slice()).ok()?;
    if !print_text(&mut picture, &MoreLine(more)) {
        return None;
    }
    picture.extend_from_slice(UNCUT.as_bytes()).ok()?;
    Some(picture)
}

// The line of each.
fn lines_of(
    alloc: Global,
    names: &[Text],
    stop: &Option<Time>,
    rows: &[Standing],
) -> Option<Vec<u8>>
    ensures { IfSome result (λ lines. lines.items ≡ flat_map (row_line names.now stop.now) rows.now) }
{
    let mut lines = Vec::new(alloc);
    for standing in rows {
        let line = line_of(alloc, names, stop, standing)?;
        lines.extend_from_slice(line.as_slice()).ok()?;
    }
    Some(lines)
}

// The line of a federate.
fn line_of(
    alloc: Global,
    names: &[Text],
    stop: &Option<Time>,
    standing: &Standing,
) -> Option<Vec<u8>>
    ensures { IfSome result (λ line. line.items ≡ row_line names.now stop.now standing.now) }
{
    let row = row_of(alloc, names, stop, standing)?;
    let mut line = Vec::new(alloc);
    line.extend_from_slice("  ".as_bytes()).ok()?;
    line.extend_from_slice(row.as_slice()).ok()?;
    line.extend_from_slice("\n".as_bytes()).ok()?;
    Some(line)
}

// Where a federate stands, as far as there is room.
fn row_of(
    alloc: Global,
    names: &[Text],
    stop: &Option<Time>,
    standing: &Standing,
) -> Option<Vec<u8>>
    ensures { IfSome result (λ row. row.items ≡ take COLUMNS (row_text names.now stop.now standing.now)) }
{
    let text = RowText {
        names,
        stop: *stop,
        standing: *standing,
    };
    let mut row = Vec::new(alloc);
    if !print_text(&mut row, &text) {
        return None;
    }
    row.truncate(COLUMNS);
    Some(row)
}

// How many federates have no line.
#[derive(Drop)]
struct MoreLine(usize);

impl fmt::Display for MoreLine {
    ghost use Rattle.std.specs.Prelude.{Some};
    ghost use Rattle.fedrun_watch.specs.Picture.{more_line};

    ghost output = { λ more. Some (more_line more.0) };

    fn fmt<W: fmt::Write>(&self, f: &mut fmt::Formatter<W>) -> fmt::Result {
        let count = self.0;
        if count == 0 {
            write!(f, "")
        } else {
            write!(f, "  and {count} more\n")
        }
    }
}

// Where a federate stands, of a run that is over at this time.
#[derive(Drop)]
struct RowText<'a> {
    names: &'a [Text],
    stop: Option<Time>,
    standing: Standing,
}

impl fmt::Display for RowText<'_> {
    ghost use Rattle.std.specs.Prelude.{Some};
    ghost use Rattle.fedrun_watch.specs.Picture.{row_text};

    ghost output = { λ row. Some (row_text row.names.now row.stop row.standing) };

    fn fmt<W: fmt::Write>(&self, f: &mut fmt::Formatter<W>) -> fmt::Result {
        let federate = FederateName {
            names: self.names,
            number: self.standing.federate,
        };
        let there = There(self.standing);
        let open = Open(self.standing.reached.unacked);
        let far = Far {
            stop: self.stop,
            reached: self.standing.reached,
        };
        write!(f, "{federate}: {there}{open}{far}")
    }
}

// How far a federate is, and may go, of a run that is over at this time.
#[derive(Drop)]
struct Far {
    stop: Option<Time>,
    reached: Reached,
}

impl fmt::Display for Far {
    ghost use Rattle.std.specs.Prelude.{Some};
    ghost use Rattle.fedrun_watch.specs.Picture.{far_text};

    ghost output = { λ far. Some (far_text far.stop far.reached) };

    fn fmt<W: fmt::Write>(&self, f: &mut fmt::Formatter<W>) -> fmt::Result {
        let completed = TagOrNone(self.reached.completed);
        let stop = Stop(self.stop);
        let granted = TagOrNone(self.reached.granted);
        write!(f, ", at {completed}{stop}, to {granted}")
    }
}

// When a federate was heard last that is connected.
#[derive(Drop)]
struct Quiet(Option<u64>);

impl fmt::Display for Quiet {
    ghost use Rattle.std.specs.Prelude.{Some};
    ghost use Rattle.fedrun_watch.specs.Picture.{quiet_text};

    ghost output = { λ quiet. Some (quiet_text quiet.0) };

    fn fmt<W: fmt::Write>(&self, f: &mut fmt::Formatter<W>) -> fmt::Result {
        match self.0 {
            Some(millis) => {
                let time = Tenths(millis);
                write!(f, "heard {time} ago")
            }
            None => write!(f, "never heard"),
        }
    }
}

// The same, or for how long it has no connection.
#[derive(Drop)]
struct There(Standing);

impl fmt::Display for There {
    ghost use Rattle.std.specs.Prelude.{Some};
    ghost use Rattle.fedrun_watch.specs.Picture.{there_text};

    ghost output = { λ there. Some (there_text there.0) };

    fn fmt<W: fmt::Write>(&self, f: &mut fmt::Formatter<W>) -> fmt::Result {
        if self.0.is_connected {
            let quiet = Quiet(self.0.quiet_ms);
            write!(f, "{quiet}")
        } else {
            let lasting = Tenths(self.0.lasting_ms);
            write!(f, "no connection for {lasting}")
        }
    }
}

// How many signals aren't acknowledged, if some aren't.
#[derive(Drop)]
struct Open(usize);

impl fmt::Display for Open {
    ghost use Rattle.std.specs.Prelude.{Some};
    ghost use Rattle.fedrun_watch.specs.Picture.{open_text};

    ghost output = { λ count. Some (open_text count.0) };

    fn fmt<W: fmt::Write>(&self, f: &mut fmt::Formatter<W>) -> fmt::Result {
        let count = self.0;
        if count == 0 {
            write!(f, "")
        } else {
            write!(f, ", {count} unacked")
        }
    }
}

// When the run is over, where that is known.
#[derive(Drop)]
struct Stop(Option<Time>);

impl fmt::Display for Stop {
    ghost use Rattle.std.specs.Prelude.{Some};
    ghost use Rattle.fedrun_watch.specs.Picture.{stop_text};

    ghost output = { λ stop. Some (stop_text stop.0) };

    fn fmt<W: fmt::Write>(&self, f: &mut fmt::Formatter<W>) -> fmt::Result {
        match self.0 {
            Some(stop) => write!(f, " of {stop}"),
            None => write!(f, ""),
        }
    }
}
