ghost use Rattle.std.specs.Prelude.{◌≡◌, ◌≢◌, ◌≤◌};

use crate::more::MoreFault;
use crate::reading::WordsFault;
use loadfed::LoadFault;
use std::fmt;
use thiserror::Error;

/// What a program prints on standard error when it gives up. What a library answered is kept as it is, and printed as
/// the library has it.
#[derive(Drop, Error)]
#[error_bound(M: MoreFault)]
pub enum Fault<'a, M> {
    /// The words are no command: whoever gave them corrects them.
    #[error("usage")]
    Usage,
    /// The file of this name isn't there, or can't be read: its owner makes it readable, or another name is given.
    /// Nothing was printed.
    #[error("cannot read {0}")]
    CannotRead(&'a str),
    /// The federation or the recorded inputs aren't taken, and the inner fault says why; or an allocation failed before
    /// all was loaded. Nothing was printed.
    #[error(transparent)]
    Load(LoadFault),
    /// Standard output takes no more. What was printed before stands.
    #[error("cannot write")]
    CannotWrite,
    /// No memory for a turn. The same command may be given again, with fewer turns.
    #[error(transparent)]
    Turns(reactor::Memory),
    /// No memory for the text of a plan. The same command may be given again.
    #[error(transparent)]
    Print(files_text::Memory),
    /// One of the program's further commands isn't done.
    #[error(transparent)]
    More(M),
}

impl<M> Fault<'_, M> {
    ghost use Rattle.fedrun_words.specs.Faults.{fault_of_words};

    /// The fault of words that give no request.
    pub fn of_words(why: WordsFault) -> Fault<'static, M>
        ensures { result ≡ fault_of_words why }
    {
        match why {
            WordsFault::Usage => Fault::Usage,
            WordsFault::Memory => Fault::Load(LoadFault::Memory),
        }
    }
}

impl<M: MoreFault> Fault<'_, M> {
    ghost use Rattle.fedrun_words.specs.Faults.{status_of};

    /// The exit status that goes with it.
    pub fn status(&self) -> u8
        ensures status { result ≡ status_of M.status_of self.now }
        ensures failure { result ≢ 0 }
        ensures statuses { result ≤ 3 }
    {
        match self {
            Fault::Usage => 2,
            Fault::CannotRead(_) | Fault::Load(_) => 1,
            Fault::CannotWrite | Fault::Turns(_) | Fault::Print(_) => 3,
            Fault::More(fault) => fault.status(),
        }
    }
}

/// As it is displayed.
impl<M: MoreFault> fmt::Debug for Fault<'_, M> {
    fn fmt<W: fmt::Write>(&self, f: &mut fmt::Formatter<W>) -> fmt::Result {
        fmt::Display::fmt(self, f)
    }
}
