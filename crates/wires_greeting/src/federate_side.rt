use crate::answer::Answer;
use crate::challenge::Challenge;
use crate::greeting::Greeting;
use crate::key::Key;
use crate::same::is_same;
use crate::sizes::{CHALLENGE_SIZE, GREETING_SIZE, PROOF_SIZE};
use crate::words::{coordinator_proof, federate_proof};
use std::marker::Model;

/// Where a federate's side of a greeting is.
#[derive(Clone, Copy, Debug)]
pub enum FederateState {
    /// It greets; the challenge is still to come.
    Greeted,
    /// The coordinator has the secret and said to go on. Once this side's proof is sent, frames begin.
    Proved(Challenge),
    /// The coordinator has the secret and gave another answer. Once this side's proof is sent, if there is one, the
    /// connection is to be closed.
    Refused(Answer),
    /// What came was no challenge, or wasn't proved: whoever answered has another secret, or answers another greeting.
    /// The connection is to be closed, and nothing that was said on it is to be believed.
    NotProved,
}

impl FederateState {
    ghost use Rattle.std.specs.Prelude.{◌≡◌};
    ghost use Rattle.wires_greeting.specs.Federate.{state_by};

    // The state by the proved challenge that came, if one came.
    fn by_proved(challenge: Option<Challenge>) -> FederateState
        ensures { result ≡ state_by challenge }
    {
        match challenge {
            Some(challenge) if challenge.answer.is_go_on() => FederateState::Proved(challenge),
            Some(challenge) => FederateState::Refused(challenge.answer),
            None => FederateState::NotProved,
        }
    }
}

/// A federate's side of one connection's greeting. Send `message`, read as many bytes as a challenge has, hand them to
/// `challenged`, and send what it gives.
#[derive(Drop)]
pub struct FederateSide {
    key: Key,
    greeting: Greeting,
    state: FederateState,
}

impl Model for FederateSide {
    ghost use Rattle.wires_greeting.specs.Federate.{Federate};

    ghost Value = { Federate };

    ghost view = { λ side. record { key = side.key; greeting = side.greeting; state = side.state } };
}

impl FederateSide {
    ghost use Rattle.std.specs.Prelude.{◌≡◌};
    ghost use Rattle.wires_greeting.specs.Message.{greeting_bytes, challenge_of};
    ghost use Rattle.wires_greeting.specs.Federate.{begun, is_greeted, is_proved, proved_challenge, after_challenge};
    ghost use Rattle.wires_greeting.specs.Federate.{sent_to, sent_after};

    /// The side of a federate that says this greeting, whose random bytes are new for this connection.
    pub fn new(key: Key, greeting: Greeting) -> FederateSide
        ensures { result ≡ begun key greeting }
    {
        FederateSide {
            key,
            greeting,
            state: FederateState::Greeted,
        }
    }

    /// What to send first.
    pub fn message(&self) -> [u8; GREETING_SIZE]
        ensures { result ≡ greeting_bytes self.now.greeting }
    {
        self.greeting.bytes()
    }

    /// Where it is.
    pub fn state(&self) -> FederateState
        ensures { result ≡ self.now.state }
    {
        self.state
    }

    /// Takes the coordinator's challenge, and gives what to send then: the proof, if frames begin, or the run is
    /// finished. A second one changes nothing.
    pub fn challenged(&mut self, message: &[u8; CHALLENGE_SIZE]) -> Option<[u8; PROOF_SIZE]>
        ensures side { self.new ≡ after_challenge self.old message.now }
        ensures sent { result ≡ sent_after self.old message.now }
    {
        if !self.is_greeted() {
            return None;
        }
        let challenge = self.proved_challenge(message);
        let proof = self.proof_to(challenge);
        self.state = FederateState::by_proved(challenge);
        proof
    }

    fn is_greeted(&self) -> bool
        ensures { result ≡ is_greeted self.now.state }
    {
        matches!(self.state, FederateState::Greeted)
    }

    // The challenge that this message is, if it is one that is proved.
    fn proved_challenge(&self, message: &[u8; CHALLENGE_SIZE]) -> Option<Challenge>
        ensures { result ≡ proved_challenge self.now (challenge_of message.now) }
    {
        match Challenge::read(message) {
            Some(challenge) if self.is_proved(&challenge) => Some(challenge),
            _ => None,
        }
    }

    // Whether it proves that the coordinator has the secret, heard this greeting, and answers so.
    fn is_proved(&self, challenge: &Challenge) -> bool
        ensures { result ≡ is_proved self.now challenge.now }
    {
        let proof = coordinator_proof(
            &self.key,
            &self.greeting,
            challenge.answer,
            &challenge.random,
        );
        is_same(&challenge.proof, &proof)
    }

    // This side's proof, if the proved challenge that came wants one.
    fn proof_to(&self, challenge: Option<Challenge>) -> Option<[u8; PROOF_SIZE]>
        ensures { result ≡ sent_to self.now challenge }
    {
        match challenge {
            Some(challenge) if challenge.answer.wants_proof() => {
                Some(federate_proof(&self.key, &self.greeting, &challenge))
            }
            _ => None,
        }
    }
}
