//! What a federate and the coordinator do with each signal, and how they work together: definitions, and the refusals
//! as code.
//!
//! Promise to the layer above: words to cite. Begin with `specs/Federate` and `specs/Coordinator`, then
//! `specs/Machine`.
#![tactic(auto)]

pub mod post;
pub mod refusal;

ghost use Rattle.std.specs.Prelude.{◌≡◌, false, pos, [], ◌∷◌};
ghost use Rattle.signal.specs.declared.signal.Signal.{Signal};
ghost use Rattle.network.specs.Examples.{at};
ghost use Rattle.protocol.specs.Grant.{passes_paths};
ghost use Rattle.protocol.specs.Machine.{federate_records_of};
ghost use Rattle.protocol.specs.Examples.{counter, counter_table, announced, routed, counted, summed, first_sum};

pub use post::Post;
pub use refusal::Refusal;

/// A short run by the plain rule `grant_next`, which grants each eligible federate its next tag. (The coordinator goes
/// by the wider rule `grant_widest`: its first TAG here would be stop.) A federate without upstream gets a TAG, and
/// sends a message and an LTC. The TAG to the other federate goes out once the LTC has come: `ByConnections` allows it,
/// `ByPaths` wouldn't yet.
pub fn first_grants()
    ensures first_tag { (announced 0).down ≡ Signal.Tag (at 0 0) ∷ [] }
    ensures not_yet { (announced 1).down ≡ [] }
    ensures message_alone { (routed 1).down ≡ Signal.Msg 0 (at 0 0) (pos 1) ∷ [] }
    ensures message_then_tag { (counted 1).down ≡ Signal.Msg 0 (at 0 0) (pos 1) ∷ Signal.Tag (at 0 0) ∷ [] }
    ensures not_by_paths { passes_paths counter counter_table (federate_records_of counted) 1 (at 0 0) ≡ false }
    ensures row { (summed 1).federate.rows ≡ first_sum }
    ensures confirmed { (summed 1).up ≡ Signal.Ltc (at 0 0) ∷ [] }
{}
