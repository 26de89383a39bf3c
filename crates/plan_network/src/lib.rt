//! A federation as a network: its plan, a program for each federate, and recorded inputs. All here is ghost.
//!
//! Promise to the layer above: the network of a legal plan is lawful, so that the laws of networks hold of it. Begin
//! with `specs/Network`, then `lawful`.
#![tactic(auto)]

pub mod examples;
pub mod lawful;
