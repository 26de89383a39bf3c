ghost use Rattle.std.specs.Prelude.{◌≡◌, ◌⊎◌};
ghost use Rattle.loadfed_tables.specs.declared.fault.TableFault.TheVariants.{Memory};

use plan_names::Text;
use std::alloc::{AllocError, AllocFailed, Global};

/// Why a table isn't taken. But for `Memory`, whoever wrote the file caused it.
#[derive(Debug, Drop)]
pub enum TableFault {
    /// The bytes are no TOML document.
    NotToml,
    /// This key is missing or unknown, or has a value of another kind or form. Correct it.
    WrongShape(Text),
    /// More entries than there may be. Write fewer.
    OverLimit,
    /// An allocation failed, wherever it was: the machine caused it, and the file may be good. The same call may be
    /// made again.
    Memory,
}

impl TableFault {
    /// The shape is wrong at this key; without memory for the key it is Memory.
    pub fn wrong_shape(alloc: Global, key: &str) -> TableFault
        ensures { (result ≡ TableFault.Memory) ⊎ (result ≡ TableFault.WrongShape key.now) }
    {
        match String::from_str(alloc, key) {
            Ok(key) => TableFault::WrongShape(Text::new(key)),
            Err(_) => TableFault::Memory,
        }
    }
}

impl From<AllocError> for TableFault {
    ghost from_gives = { λ _ fault. fault ≡ Memory };

    fn from(_error: AllocError) -> TableFault {
        TableFault::Memory
    }
}

impl<T: Drop> From<AllocFailed<T>> for TableFault {
    ghost from_gives = { λ _ fault. fault ≡ Memory };

    fn from(_failed: AllocFailed<T>) -> TableFault {
        TableFault::Memory
    }
}
