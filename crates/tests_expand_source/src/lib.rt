//! Tests of sources with parameters, classes and many of a kind: what they become, byte by byte, which are refused, that
//! federation files stay as they are, and that the document of a text is held against that of its source.
//!
//! Begin with `sources`, which are worked by hand, then `expansions`.
#![tactic(auto)]

#[cfg(test)]
mod answers;
#[cfg(test)]
mod documents;
#[cfg(test)]
mod expansions;
#[cfg(test)]
mod lines;
#[cfg(test)]
mod refusals;
#[cfg(test)]
mod sources;
#[cfg(test)]
mod tokens;
#[cfg(test)]
mod unchanged;
