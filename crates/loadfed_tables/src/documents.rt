ghost use Rattle.std.specs.Prelude.{◌≡◌, ◌⊎◌, IfOk, IfErr};
ghost use Rattle.toml.specs.Data.{Members};
ghost use Rattle.toml.specs.View.{table_view};
ghost use Rattle.loadfed_tables.specs.Documents.{IsDocument};

use crate::fault::TableFault;
use std::alloc::Global;
use toml::Table;

/// The TOML document that the bytes are.
pub fn document(alloc: Global, bytes: &[u8]) -> Result<Table, TableFault>
    ensures ok { IfOk result (λ file. IsDocument bytes.now (table_view file)) }
    ensures refused { IfErr result
        (λ fault. (fault ≡ TableFault.Memory)
        ⊎ ((fault ≡ TableFault.NotToml) × ((file : Members) → ¬ (IsDocument bytes.now file)))) }
{
    match toml::table_from_slice(alloc, bytes) {
        Ok(table) => Ok(table),
        Err(error) => {
            if error.is_memory() {
                Err(TableFault::Memory)
            } else {
                Err(TableFault::NotToml)
            }
        }
    }
}
