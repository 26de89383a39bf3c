//! Arrays of tables.
ghost use Rattle.std.specs.Prelude.{◌≡◌, ◌⊎◌, IfOk, IfErr};
ghost use Rattle.loadfed_tables.specs.Sections.{members_of};
ghost use Rattle.loadfed_tables.specs.Tables.{SaysEach};
ghost use Rattle.loadfed.specs.ShapeFaults.{HasTablesFault};

use loadfed_tables::{Section, TableFault};
use std::alloc::Global;

/// What a table of a file may say.
pub trait FromTable: Sized + Drop {
    ghost use Rattle.std.specs.Prelude.{◌≡◌, ◌⊎◌, IfOk, IfErr};
    ghost use Rattle.toml.specs.Data.{Members};
    ghost use Rattle.loadfed_tables.specs.Sections.{members_of};
    ghost use Rattle.loadfed.specs.Refused.{Fault};

    ghost says: { Members → Self → Type 0 };

    ghost has_fault: { Members → Fault → Type 0 };

    fn from_table(alloc: Global, table: &Section<'_>) -> Result<Self, TableFault>
        ensures ok { IfOk result (says (members_of table.now)) }
        ensures refused { IfErr result
            (λ fault. (fault ≡ TableFault.Memory) ⊎ has_fault (members_of table.now) fault) };
}

/// What the tables of the array at a key say, in their order.
pub fn read_each<T: FromTable>(
    alloc: Global,
    section: &Section<'_>,
    key: &str,
) -> Result<Vec<T>, TableFault>
    ensures ok { IfOk result (λ each. SaysEach T.says key.now (members_of section.now) each.items) }
    ensures refused { IfErr result
        (λ fault. (fault ≡ TableFault.Memory) ⊎ HasTablesFault T.has_fault key.now (members_of section.now) fault) }
{
    let values = section.array(key)?;
    let mut each = Vec::new(alloc);
    for value in values {
        let table = Section::entry(alloc, key, value)?;
        let entry = T::from_table(alloc, &table)?;
        each.push(entry)?;
    }
    Ok(each)
}
