//! Pictures, as SVG: of a federation, and of a schedule played over it. One file without scripts or fonts of its own,
//! that a browser opens.
//!
//! Promise to the layer above: what is written is some picture, of a federation or of an excerpt of a schedule that is
//! short enough; with any fault but a refused write nothing is, and what is too long is refused by the number of its
//! steps. What is drawn of an excerpt stands for just the lines of its steps (`specs/Drawn`, `specs/Excerpts`). How a
//! picture looks no contract says. Here is read what is drawn; `files_pictures` lays it out and writes it:
//!
//!     Plan ---> reading --> Figures
//!     Script -> playing --> History
//!
//! Begin with `drawn`.
#![tactic(auto)]

mod drawn;
pub mod excerpt;
pub mod fault;
mod playing;
mod reactions;
mod reading;
mod ways;
mod wording;

pub use drawn::{draw_federation, draw_schedule, history_of_schedule};
pub use excerpt::Excerpt;
pub use fault::DrawFault;
pub use reading::figures_of;
