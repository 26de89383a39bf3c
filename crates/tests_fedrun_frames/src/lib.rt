//! Tests of what is printed of frames, against lines that were worked out by hand, and of traces: one that was worked
//! out by hand, event by event; of longer ones that each event has the fields that the format asks for, that arrows
//! begin before they end, and that time never falls; of writers that refuse. No program uses this crate.
//!
//! Begin with `forms`; of traces with `worked`, then `format`.
#![tactic(auto)]

#[cfg(test)]
mod format;
#[cfg(test)]
mod forms;
#[cfg(test)]
mod printed;
#[cfg(test)]
mod refusing;
#[cfg(test)]
mod traced;
#[cfg(test)]
mod worked;
