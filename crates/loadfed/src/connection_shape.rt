ghost use Rattle.std.specs.Prelude.{◌≡◌, ◌⊎◌, IfOk, IfErr, codes};
ghost use Rattle.loadfed_tables.specs.Sections.{members_of};
ghost use Rattle.loadfed_tables.specs.Tables.{SaysEach};
ghost use Rattle.loadfed.specs.Shape.{SaysConnection};
ghost use Rattle.loadfed.specs.ShapeFaults.{HasConnectionFault, HasTablesFault};

use crate::arrays::{FromTable, read_each};
use loadfed_tables::{Section, TableFault};
use plan::{ConnectionDraft, Connections};
use std::alloc::Global;

/// The connections in a file's table.
pub fn connections_shape(alloc: Global, file: &Section<'_>) -> Result<Connections, TableFault>
    ensures ok { IfOk result (SaysEach SaysConnection (codes "connection") (members_of file.now)) }
    ensures refused { IfErr result
        (λ fault. (fault ≡ TableFault.Memory)
        ⊎ HasTablesFault HasConnectionFault (codes "connection") (members_of file.now) fault) }
{
    let connections = read_each(alloc, file, "connection")?;
    Ok(Connections::new(connections))
}

impl FromTable for ConnectionDraft {
    ghost says = { SaysConnection };

    ghost has_fault = { HasConnectionFault };

    fn from_table(_alloc: Global, table: &Section<'_>) -> Result<ConnectionDraft, TableFault> {
        table.has_only(&["from", "to", "after"])?;
        let from = table.port("from")?;
        let to = table.port("to")?;
        let after = table.duration("after")?;
        Ok(ConnectionDraft { from, to, after })
    }
}
