//! What a step does, and to which frame, as far as a picture shows it.
use files_pictures::history::Sending;
use files_pictures::shapes::Ink;
use world::{Dir, Outcome, Step};

/// The federate of a direction, and whether it leads to the coordinator.
pub(crate) fn way_of(dir: Dir) -> (usize, bool) {
    match dir {
        Dir::Up(federate) => (federate, true),
        Dir::Down(federate) => (federate, false),
    }
}

/// The direction of a federate.
pub(crate) fn dir_of(federate: usize, is_up: bool) -> Dir {
    if is_up {
        Dir::Up(federate)
    } else {
        Dir::Down(federate)
    }
}

/// Whether this is that frame of that direction.
pub(crate) fn is_frame(frame: &Sending, federate: usize, is_up: bool, number: usize) -> bool {
    frame.federate == federate && frame.is_up == is_up && frame.number == number
}

/// The number by which something was refused.
pub(crate) fn refusal(outcome: Outcome) -> Option<u16> {
    match outcome {
        Outcome::Refused(number) => Some(number),
        Outcome::Nothing | Outcome::Done => None,
    }
}

/// The ink of a step that ended so.
pub(crate) fn outcome_ink(outcome: Outcome) -> Ink {
    match outcome {
        Outcome::Refused(_) => Ink::Refused,
        Outcome::Nothing | Outcome::Done => Ink::Faint,
    }
}

/// Whether a step has room in the picture: where it changed nothing, only if it was asked for by name.
pub(crate) fn is_shown(step: Step, outcome: Outcome) -> bool {
    match step {
        Step::Deliver(_, _) | Step::Reconnect(_) | Step::Forget(_) => true,
        Step::Announce(_) | Step::Advance(_) | Step::Resend(_) => outcome != Outcome::Nothing,
    }
}

/// The federate that a step made forget.
pub(crate) fn forgets(step: Step, outcome: Outcome) -> Option<usize> {
    match step {
        Step::Forget(federate) if outcome == Outcome::Done => Some(federate),
        _ => None,
    }
}
