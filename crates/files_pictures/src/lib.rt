//! Pictures of federations and of schedules, as plain data and as SVG. It knows no federation: what is drawn are names
//! and numbers.
//!
//! Promise to the layer above: what is written of a picture is its text (`specs/Svg`), in which no text is read as part
//! of the file's form (`specs/Escaped`). Laying out is safe, and ends: no number overflows, and it fails only for
//! want of memory. How a picture looks no contract says. It is laid out as plain data first (`shapes`), so that tests
//! see where things stand:
//!
//!     Figures --> federation (columns, returns, grid) --+--> Picture --> svg (lines, labels, looks) --> a writer
//!     History --> lifelines (times, runs, arrows) ------+
//!
//! Begin with `figures` and `history`, which say what is drawn, then `shapes`.
#![tactic(auto)]

mod arrows;
mod columns;
mod federation;
pub mod figures;
mod grid;
pub mod history;
mod labels;
pub mod laws;
mod lifelines;
mod lines;
mod looks;
mod returns;
mod runs;
pub mod shapes;
mod svg;
mod times;

pub use federation::federation_picture;
pub use figures::Figures;
pub use history::History;
pub use lifelines::schedule_picture;
pub use shapes::Picture;
pub use svg::write_picture;
