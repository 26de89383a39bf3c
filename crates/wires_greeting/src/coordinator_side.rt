use crate::answer::Answer;
use crate::challenge::Challenge;
use crate::greeting::Greeting;
use crate::key::Key;
use crate::same::is_same;
use crate::sizes::{CHALLENGE_SIZE, DIGEST_SIZE, GREETING_SIZE, PROOF_SIZE, RANDOM_SIZE};
use crate::words::{coordinator_proof, federate_proof};
use std::marker::Model;

/// Where the coordinator's side of a greeting is.
#[derive(Clone, Copy, Debug)]
pub enum CoordinatorState {
    /// The greeting is still to come.
    Waiting,
    /// It heard this greeting and gave this challenge, which says to go on. The federate's proof is still to come.
    Challenged {
        greeting: Greeting,
        challenge: Challenge,
    },
    /// The federate of that greeting proved that it has the secret and heard this challenge: frames begin.
    LetIn {
        greeting: Greeting,
        challenge: Challenge,
    },
    /// It heard this greeting and gave this challenge, which says that the run is finished. The federate's proof is
    /// still to come.
    Finishing {
        greeting: Greeting,
        challenge: Challenge,
    },
    /// The federate of that greeting proved that it has the secret and heard this challenge: it was told that the run
    /// is finished. The connection is to be closed.
    Told {
        greeting: Greeting,
        challenge: Challenge,
    },
    /// It gave this answer, which is neither to go on nor that the run is finished. Once the challenge is sent, the
    /// connection is to be closed.
    Refused(Answer),
    /// What came was no greeting of this protocol and version. The connection is to be closed, and nothing is to be
    /// said on it.
    OtherProtocol,
    /// What came wasn't the federate's proof: it has another secret, or proves another connection. The connection is to
    /// be closed.
    NotProved,
}

impl CoordinatorState {
    ghost use Rattle.std.specs.Prelude.{◌≡◌};
    ghost use Rattle.wires_greeting.specs.Coordinator.{answered};

    // The state once this challenge is given to this greeting.
    fn answered(greeting: Greeting, challenge: Challenge) -> CoordinatorState
        ensures { result ≡ answered greeting challenge }
    {
        if challenge.answer.is_go_on() {
            CoordinatorState::Challenged {
                greeting,
                challenge,
            }
        } else if challenge.answer.is_finished() {
            CoordinatorState::Finishing {
                greeting,
                challenge,
            }
        } else {
            CoordinatorState::Refused(challenge.answer)
        }
    }
}

/// The coordinator's side of one connection's greeting. Read as many bytes as a greeting has, hand them to `greeted`
/// and send what it gives; then, where it is `Challenged` or `Finishing`, read as many bytes as a proof has, and hand
/// them to `proved`.
#[derive(Drop)]
pub struct CoordinatorSide {
    key: Key,
    files: [u8; DIGEST_SIZE],
    state: CoordinatorState,
}

impl Model for CoordinatorSide {
    ghost use Rattle.wires_greeting.specs.Coordinator.{Coordinator};

    ghost Value = { Coordinator };

    ghost view = { λ side. record { key = side.key; files = side.files; state = side.state } };
}

impl CoordinatorSide {
    ghost use Rattle.std.specs.Prelude.{◌≡◌, bytes_eq};
    ghost use Rattle.wires_greeting.specs.Proof.{federate_proof};
    ghost use Rattle.wires_greeting.specs.Coordinator.{waiting, is_waiting, answer_to, challenge_to, after_greeting};
    ghost use Rattle.wires_greeting.specs.Coordinator.{sent_after, after_proof, let_in, told};

    /// The side of a coordinator that has these files, by their digest.
    pub fn new(key: Key, files: [u8; DIGEST_SIZE]) -> CoordinatorSide
        ensures { result ≡ waiting key files }
    {
        CoordinatorSide {
            key,
            files,
            state: CoordinatorState::Waiting,
        }
    }

    /// Where it is.
    pub fn state(&self) -> CoordinatorState
        ensures { result ≡ self.now.state }
    {
        self.state
    }

    /// The federate of which frames begin, once it is let in.
    pub fn let_in(&self) -> Option<u16>
        ensures { result ≡ let_in self.now.state }
    {
        match self.state {
            CoordinatorState::LetIn { greeting, .. } => Some(greeting.federate),
            _ => None,
        }
    }

    /// The federate that was told that the run is finished, once it has proved that it heard so.
    pub fn told(&self) -> Option<u16>
        ensures { result ≡ told self.now.state }
    {
        match self.state {
            CoordinatorState::Told { greeting, .. } => Some(greeting.federate),
            _ => None,
        }
    }

    /// Takes a greeting, and gives the challenge to be sent, if what came is one. `random` is new for this connection;
    /// `allowed` says of each federate of the federation whether it may still take part, and `finished` whether the run
    /// is finished. A second greeting changes nothing.
    pub fn greeted(
        &mut self,
        message: &[u8; GREETING_SIZE],
        random: &[u8; RANDOM_SIZE],
        allowed: &[bool],
        finished: bool,
    ) -> Option<[u8; CHALLENGE_SIZE]>
        ensures side { self.new ≡ after_greeting self.old message.now random.now allowed.now finished }
        ensures sent { result ≡ sent_after self.old message.now random.now allowed.now finished }
    {
        if !self.is_waiting() {
            return None;
        }
        let Some(greeting) = Greeting::read(message) else {
            self.state = CoordinatorState::OtherProtocol;
            return None;
        };
        let challenge = self.challenge_to(&greeting, random, allowed, finished);
        self.state = CoordinatorState::answered(greeting, challenge);
        Some(challenge.bytes())
    }

    /// Takes the federate's proof. Without a challenge before it, it changes nothing.
    pub fn proved(&mut self, proof: &[u8; PROOF_SIZE])
        ensures { self.new ≡ after_proof self.old proof.now }
    {
        self.state = match self.state {
            CoordinatorState::Challenged {
                greeting,
                challenge,
            } => {
                if self.is_proved(&greeting, &challenge, proof) {
                    CoordinatorState::LetIn {
                        greeting,
                        challenge,
                    }
                } else {
                    CoordinatorState::NotProved
                }
            }
            CoordinatorState::Finishing {
                greeting,
                challenge,
            } => {
                let is_told = self.is_proved(&greeting, &challenge, proof);
                if is_told {
                    CoordinatorState::Told {
                        greeting,
                        challenge,
                    }
                } else {
                    CoordinatorState::NotProved
                }
            }
            state => state,
        };
    }

    // Whether this is the proof of a federate that said this greeting, and heard this challenge.
    fn is_proved(
        &self,
        greeting: &Greeting,
        challenge: &Challenge,
        proof: &[u8; PROOF_SIZE],
    ) -> bool
        ensures { result ≡ bytes_eq proof.now (federate_proof self.now.key greeting.now challenge.now) }
    {
        let expected = federate_proof(&self.key, greeting, challenge);
        is_same(proof, &expected)
    }

    fn is_waiting(&self) -> bool
        ensures { result ≡ is_waiting self.now.state }
    {
        matches!(self.state, CoordinatorState::Waiting)
    }

    fn challenge_to(
        &self,
        greeting: &Greeting,
        random: &[u8; RANDOM_SIZE],
        allowed: &[bool],
        finished: bool,
    ) -> Challenge
        ensures { result ≡ challenge_to self.now random.now allowed.now finished greeting.now }
    {
        let answer = self.answer_to(greeting, allowed, finished);
        Challenge {
            answer,
            random: *random,
            proof: coordinator_proof(&self.key, greeting, answer, random),
        }
    }

    fn answer_to(&self, greeting: &Greeting, allowed: &[bool], finished: bool) -> Answer
        ensures { result ≡ answer_to self.now.files allowed.now finished greeting.now }
    {
        if greeting.files != self.files {
            return Answer::OtherFiles;
        }
        match allowed.get(usize::from(greeting.federate)) {
            None => Answer::NoSuchFederate,
            Some(_) if finished => Answer::Finished,
            Some(true) => Answer::GoOn,
            Some(false) => Answer::NotAllowed,
        }
    }
}
