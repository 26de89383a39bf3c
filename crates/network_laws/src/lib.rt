//! The undivided program in its order, and why any system that is consistent computes it: laws over every lawful
//! network, with no code.
//!
//! Promise to the layer above: words and laws to cite. Begin with `consistent_traces_agree` in `agreement`, then
//! `undivided`; `seen` says slot by slot what a reactor should see, `pending` what is pending for each slot, and
//! `gateway` shows a network that the laws hold of.
#![tactic(auto)]

pub mod agreement;
pub mod gateway;
pub mod pending;
pub mod seen;
pub mod undivided;
