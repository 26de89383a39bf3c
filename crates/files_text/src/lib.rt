//! Rows and plans as text.
//!
//! Promise to the layer above: the text is the definition's: of rows in either format `specs/Formats` (`specs/RowText`,
//! `specs/CsvText`), of a plan `specs/PlanText`. Rows go to a writer through room of a fixed size (`fixed`), and need
//! no memory; a plan's text needs some. Begin with `write_rows`.
#![tactic(auto)]

mod csv_rows;
mod fixed;
pub mod memory;
mod names;
pub mod plans;
pub mod put;
pub mod row_format;
pub mod rows;
mod spelling;
mod tags;

pub use memory::Memory;
pub use plans::{federate_name, plan_text};
pub use put::CannotWrite;
pub use row_format::RowFormat;
pub use rows::{write_heading, write_rows};
