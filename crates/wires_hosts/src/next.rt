ghost use Rattle.std.specs.Prelude.{◌≡◌};

use wires_greeting::CoordinatorState;

/// What is to come next on a connection that came to the coordinator.
#[derive(Clone, Copy, Debug, PartialEq, Eq)]
pub enum Next {
    /// The greeting.
    Greeting,
    /// The federate's proof.
    Proof,
    /// The first frame.
    Hello,
}

impl Next {
    ghost use Rattle.wires_hosts.specs.Next.{next_by};

    /// What is next by where the coordinator's side of a greeting came to. None where nothing is: the connection is to
    /// be closed.
    pub fn by_state(state: &CoordinatorState) -> Option<Next>
        ensures { result ≡ next_by state.now }
    {
        match state {
            CoordinatorState::Waiting => Some(Next::Greeting),
            CoordinatorState::Challenged { .. } => Some(Next::Proof),
            CoordinatorState::Finishing { .. } => Some(Next::Proof),
            CoordinatorState::LetIn { .. } => Some(Next::Hello),
            CoordinatorState::Told { .. }
            | CoordinatorState::Refused(_)
            | CoordinatorState::OtherProtocol
            | CoordinatorState::NotProved => None,
        }
    }
}
