ghost use Rattle.std.specs.Prelude.{◌≡◌};
ghost use Rattle.node.specs.Numbers.{closes};

use protocol::Refusal;

/// Whether a signal so refused closes the link that it came by: its sender doesn't keep to the rules.
pub fn closes(refusal: Refusal) -> bool
    ensures { result ≡ closes refusal }
{
    match refusal {
        Refusal::Late | Refusal::OldGrant | Refusal::WrongSignal => false,
        Refusal::NotYours
        | Refusal::BelowGrant
        | Refusal::NotRising
        | Refusal::AfterStop
        | Refusal::NotForCoordinator => true,
    }
}
