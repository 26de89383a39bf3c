/// What the coordinator answers to a greeting. A federate believes an answer only if it is proved by the secret.
#[derive(Clone, Copy, Debug, PartialEq, Eq)]
pub enum Answer {
    /// Go on: frames begin once the federate has proved the secret too.
    GoOn,
    /// The coordinator has another federation file or another input file. Whoever starts both gives them the same.
    OtherFiles,
    /// The federation has no federate of that number.
    NoSuchFederate,
    /// The run is finished: nothing is left to be done.
    Finished,
    /// The coordinator lets this federate take part no more.
    NotAllowed,
}

impl Answer {
    ghost use Rattle.std.specs.Prelude.{◌≡◌};
    ghost use Rattle.wires_greeting.specs.Answer.{byte_of, answer_of, is_go_on, is_finished, wants_proof};

    /// The byte that says it.
    pub fn byte(self) -> u8
        ensures { result ≡ byte_of self }
    {
        match self {
            Answer::GoOn => 1,
            Answer::OtherFiles => 2,
            Answer::NoSuchFederate => 3,
            Answer::Finished => 4,
            Answer::NotAllowed => 5,
        }
    }

    /// The answer that a byte says, if it says one.
    pub fn of_byte(byte: u8) -> Option<Answer>
        ensures { result ≡ answer_of byte }
    {
        match byte {
            1 => Some(Answer::GoOn),
            2 => Some(Answer::OtherFiles),
            3 => Some(Answer::NoSuchFederate),
            4 => Some(Answer::Finished),
            5 => Some(Answer::NotAllowed),
            _ => None,
        }
    }

    /// Whether it is to go on.
    pub fn is_go_on(self) -> bool
        ensures { result ≡ is_go_on self }
    {
        matches!(self, Answer::GoOn)
    }

    /// Whether it says that the run is finished.
    pub fn is_finished(self) -> bool
        ensures { result ≡ is_finished self }
    {
        matches!(self, Answer::Finished)
    }

    /// Whether the federate proves the secret behind it: where frames begin, and where it is told that the run is
    /// finished.
    pub fn wants_proof(self) -> bool
        ensures { result ≡ wants_proof self }
    {
        self.is_go_on() || self.is_finished()
    }
}
