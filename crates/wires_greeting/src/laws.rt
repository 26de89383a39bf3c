//! What the definitions of a greeting keep. Each function's contract is a law; it does nothing.

ghost use Rattle.std.specs.Prelude.{◌≡◌, ◌≢◌, ◌<◌, ◌^◌, ◌++◌, ℕ, List, Bool, Some, true, false, length, slice_get};
ghost use Rattle.std.specs.Prelude.{slice_index};
ghost use Rattle.wires_greeting.specs.declared.answer.Answer.{Answer};
ghost use Rattle.wires_greeting.specs.declared.greeting.Greeting.{Greeting};
ghost use Rattle.wires_greeting.specs.declared.challenge.Challenge.{Challenge};
ghost use Rattle.wires_greeting.specs.Files.{with_length};
ghost use Rattle.wires_greeting.specs.Message.{greeting_bytes, greeting_of, challenge_bytes, challenge_of, IsGreeting};
ghost use Rattle.wires_greeting.specs.Message.{IsChallenge};
ghost use Rattle.wires_greeting.specs.Proof.{coordinator_said, federate_said, federate_proof, challenge_by};
ghost use Rattle.wires_greeting.specs.Federate as federate;
ghost use Rattle.wires_greeting.specs.Coordinator as coordinator;
ghost use Rattle.wires_greeting.specs.Calls.{CoordinatorCall, after_calls, after_challenges, IsLetIn, IsTold, GoesOn};
ghost use Rattle.wires_greeting.specs.Calls.{BelievesRefusal};

use crate::coordinator_side::CoordinatorState;
use crate::federate_side::FederateState;
use crate::sizes::{CHALLENGE_SIZE, GREETING_SIZE, RANDOM_SIZE};

/// The coordinator lets a federate in only where both sides proved the secret over all that this connection said, the
/// files are the same, and the federate is there.
pub fn lets_in_by_both_proofs()
    ensures { (key files : List ℕ) (calls : List CoordinatorCall) (g : Greeting) (c : Challenge)
        → (after_calls (coordinator.waiting key files) calls).state ≡ CoordinatorState.LetIn g c
        → IsLetIn key files calls g c }
{}

/// A federate counts as told that the run is finished only where both sides proved the secret over all that this
/// connection said, the files are the same, the federate is there, and the run is finished.
pub fn tells_by_both_proofs()
    ensures { (key files : List ℕ) (calls : List CoordinatorCall) (g : Greeting) (c : Challenge)
        → (after_calls (coordinator.waiting key files) calls).state ≡ CoordinatorState.Told g c
        → IsTold key files calls g c }
{}

/// A federate goes on only where the coordinator proved the secret over this connection's greeting, and says so.
pub fn goes_on_by_proof()
    ensures { (key : List ℕ) (g : Greeting) (came : List (List ℕ)) (c : Challenge)
        → (after_challenges (federate.begun key g) came).state ≡ FederateState.Proved c → GoesOn key g came c }
{}

/// A federate believes a refusal only where the coordinator proved the secret over this connection's greeting, and says
/// so.
pub fn believes_refusals_by_proof()
    ensures { (key : List ℕ) (g : Greeting) (came : List (List ℕ)) (a : Answer)
        → (after_challenges (federate.begun key g) came).state ≡ FederateState.Refused a
        → BelievesRefusal key g came a }
{}

/// Both sides go on where both have the same key and the same files, the federate is there and may take part, and all
/// that is said comes as it was said.
pub fn honest_sides_go_on()
    ensures challenge { (key files random : List ℕ) (allowed : List Bool) (g : Greeting) → IsGreeting g
        → g.files ≡ files → slice_get allowed g.federate ≡ Some true →
        coordinator.sent_after (coordinator.waiting key files) (greeting_bytes g) random allowed false
        ≡ Some (challenge_bytes (challenge_by key g Answer.GoOn random)) }
    ensures proof { (key random : List ℕ) (g : Greeting) → length random ≡ RANDOM_SIZE →
        federate.sent_after (federate.begun key g) (challenge_bytes (challenge_by key g Answer.GoOn random))
        ≡ Some (federate_proof key g (challenge_by key g Answer.GoOn random)) }
    ensures let_in { (key files random : List ℕ) (allowed : List Bool) (g : Greeting) → IsGreeting g → g.files ≡ files
        → slice_get allowed g.federate ≡ Some true →
        (coordinator.after_proof (coordinator.after_greeting (coordinator.waiting key files) (greeting_bytes g) random
        allowed false) (federate_proof key g (challenge_by key g Answer.GoOn random))).state
        ≡ CoordinatorState.LetIn g (challenge_by key g Answer.GoOn random) }
{}

/// A federate is told that the run is finished, and counts as told, where both have the same key and the same files,
/// the federate is there, and all that is said comes as it was said.
pub fn honest_federates_are_told()
    ensures challenge { (key files random : List ℕ) (allowed : List Bool) (g : Greeting) (is_allowed : Bool)
        → IsGreeting g → g.files ≡ files → slice_get allowed g.federate ≡ Some is_allowed →
        coordinator.sent_after (coordinator.waiting key files) (greeting_bytes g) random allowed true
        ≡ Some (challenge_bytes (challenge_by key g Answer.Finished random)) }
    ensures proof { (key random : List ℕ) (g : Greeting) → length random ≡ RANDOM_SIZE →
        federate.sent_after (federate.begun key g) (challenge_bytes (challenge_by key g Answer.Finished random))
        ≡ Some (federate_proof key g (challenge_by key g Answer.Finished random)) }
    ensures told { (key files random : List ℕ) (allowed : List Bool) (g : Greeting) (is_allowed : Bool) → IsGreeting g
        → g.files ≡ files → slice_get allowed g.federate ≡ Some is_allowed →
        (coordinator.after_proof (coordinator.after_greeting (coordinator.waiting key files) (greeting_bytes g) random
        allowed true) (federate_proof key g (challenge_by key g Answer.Finished random))).state
        ≡ CoordinatorState.Told g (challenge_by key g Answer.Finished random) }
{}

/// What one side proves on one connection is never what the other proves, or what is proved on a connection on which
/// anything else was said.
pub fn proofs_tell_what_was_said()
    ensures sides { (g other : Greeting) (a : Answer) (random : List ℕ) (c : Challenge)
        → coordinator_said g a random ≢ federate_said other c }
    ensures coordinator { (g other : Greeting) (a b : Answer) (random more : List ℕ) → IsGreeting g → IsGreeting other
        → coordinator_said g a random ≡ coordinator_said other b more → (g ≡ other) × (a ≡ b) × (random ≡ more) }
    ensures federate { (g other : Greeting) (c d : Challenge) → IsGreeting g → IsGreeting other → IsChallenge c
        → IsChallenge d → federate_said g c ≡ federate_said other d → (g ≡ other) × (c ≡ d) }
{}

/// What is spelled is read again, and nothing else is read.
pub fn spelled_is_read()
    ensures greeting { (g : Greeting) → IsGreeting g → greeting_of (greeting_bytes g) ≡ Some g }
    ensures no_other_greeting { (bytes : List ℕ) (g : Greeting) → length bytes ≡ GREETING_SIZE
        → ((i : ℕ) → slice_index bytes i < 2 ^ 8) → greeting_of bytes ≡ Some g → bytes ≡ greeting_bytes g }
    ensures challenge { (c : Challenge) → IsChallenge c → challenge_of (challenge_bytes c) ≡ Some c }
    ensures no_other_challenge { (bytes : List ℕ) (c : Challenge) → length bytes ≡ CHALLENGE_SIZE
        → challenge_of bytes ≡ Some c → bytes ≡ challenge_bytes c }
{}

/// What the digest is of tells both files.
pub fn files_are_told()
    ensures { (a b c d : List ℕ) → length a < 2 ^ 64 → length c < 2 ^ 64
        → with_length a ++ with_length b ≡ with_length c ++ with_length d → (a ≡ c) × (b ≡ d) }
{}
