//! Times as text: milliseconds as seconds, and the time of day.
use std::fmt;

/// So many ms, in seconds.
#[derive(Drop)]
pub(crate) struct Seconds(pub u64);

impl fmt::Display for Seconds {
    ghost use Rattle.std.specs.Prelude.{Some};
    ghost use Rattle.fedrun_watch.specs.Seconds.{seconds_text};

    ghost output = { λ seconds. Some (seconds_text seconds.0) };

    fn fmt<W: fmt::Write>(&self, f: &mut fmt::Formatter<W>) -> fmt::Result {
        let seconds = self.0 / 1000;
        let tenths = self.0 / 100 % 10;
        let hundredths = self.0 / 10 % 10;
        let thousandths = self.0 % 10;
        write!(f, "{seconds}.{tenths}{hundredths}{thousandths} s")
    }
}

/// So many ms, in seconds with one decimal.
#[derive(Drop)]
pub(crate) struct Tenths(pub u64);

impl fmt::Display for Tenths {
    ghost use Rattle.std.specs.Prelude.{Some};
    ghost use Rattle.fedrun_watch.specs.Seconds.{tenths_text};

    ghost output = { λ tenths. Some (tenths_text tenths.0) };

    fn fmt<W: fmt::Write>(&self, f: &mut fmt::Formatter<W>) -> fmt::Result {
        let seconds = self.0 / 1000;
        let tenths = self.0 / 100 % 10;
        write!(f, "{seconds}.{tenths} s")
    }
}

// A number below 100, with two digits.
#[derive(Drop)]
struct Digits(u64);

impl fmt::Display for Digits {
    ghost use Rattle.std.specs.Prelude.{Some};
    ghost use Rattle.fedrun_watch.specs.Seconds.{digits_text};

    ghost output = { λ digits. Some (digits_text digits.0) };

    fn fmt<W: fmt::Write>(&self, f: &mut fmt::Formatter<W>) -> fmt::Result {
        let tens = self.0 / 10 % 10;
        let ones = self.0 % 10;
        write!(f, "{tens}{ones}")
    }
}

/// The time of day, so many seconds after a day began.
#[derive(Drop)]
pub(crate) struct TimeOfDay(pub u64);

impl fmt::Display for TimeOfDay {
    ghost use Rattle.std.specs.Prelude.{Some};
    ghost use Rattle.fedrun_watch.specs.Seconds.{day_text};

    ghost output = { λ time. Some (day_text time.0) };

    fn fmt<W: fmt::Write>(&self, f: &mut fmt::Formatter<W>) -> fmt::Result {
        let hours = Digits(self.0 / 3600 % 24);
        let minutes = Digits(self.0 / 60 % 60);
        let seconds = Digits(self.0 % 60);
        write!(f, "{hours}:{minutes}:{seconds} UTC")
    }
}
