ghost use Rattle.std.specs.Prelude.{◌≡◌};

use std::fmt;

/// What is wrong with what is said in a file whose digest is right. Whoever wrote the file is at fault, and it can't be
/// mended: another has to be had of that node.
#[derive(Clone, Copy, Debug, PartialEq, Eq)]
pub enum ContentFault {
    /// It ends before what a count or a kind announces.
    Short,
    /// A row has a time of 2^62 ns or more that isn't FOREVER.
    BadTag,
    /// An event is of a kind that there isn't.
    BadEvent,
    /// An event's frame isn't one frame: its bytes have a fault, it is a Batch, or a Hello of another version than the
    /// first.
    BadFrame,
    /// Bytes stand behind the journal.
    Trailing,
}

impl ContentFault {
    ghost use Rattle.files_reports.specs.Faults.{content_number, content_name};

    /// The number by which it is printed.
    pub const fn number(self) -> u16
        ensures { result ≡ content_number self }
    {
        match self {
            ContentFault::Short => 104,
            ContentFault::BadTag => 105,
            ContentFault::BadEvent => 106,
            ContentFault::BadFrame => 107,
            ContentFault::Trailing => 108,
        }
    }

    /// The name by which it is printed.
    pub const fn name(self) -> &'static str
        ensures { result.now ≡ content_name self }
    {
        match self {
            ContentFault::Short => "Short",
            ContentFault::BadTag => "BadTag",
            ContentFault::BadEvent => "BadEvent",
            ContentFault::BadFrame => "BadFrame",
            ContentFault::Trailing => "Trailing",
        }
    }
}

impl fmt::Display for ContentFault {
    ghost use Rattle.std.specs.Prelude.{Some};
    ghost use Rattle.files_reports.specs.Faults.{content_text};

    ghost output = { λ fault. Some (content_text fault) };

    fn fmt<W: fmt::Write>(&self, f: &mut fmt::Formatter<W>) -> fmt::Result {
        let name = self.name();
        write!(f, "{} {name}", self.number())
    }
}

impl std::error::Error for ContentFault {}
