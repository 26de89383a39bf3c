//! What a station's reply says.
ghost use Rattle.std.specs.Prelude.{◌≡◌};
ghost use Rattle.node.specs.Step.{answer_in};
ghost use Rattle.world_stations.specs.World.{outcome_of, frames_of};

use crate::Outcome;
use node::{Outgoing, Reply};

/// How it is printed.
pub(crate) fn outcome_of(reply: &Reply) -> Outcome
    ensures { result ≡ outcome_of (answer_in reply.now) }
{
    match reply {
        Reply::Nothing => Outcome::Nothing,
        Reply::Done(_) => Outcome::Done,
        Reply::Refused(number, _) => Outcome::Refused(*number),
    }
}

/// The frames that go out.
pub(crate) fn frames_of(reply: &Reply) -> &[Outgoing]
    ensures { result.now ≡ frames_of (answer_in reply.now) }
{
    match reply {
        Reply::Nothing => &[],
        Reply::Done(frames) | Reply::Refused(_, frames) => frames,
    }
}
