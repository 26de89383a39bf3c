//! The laws of the undivided program, over every lawful network: its order, how far it gets, and that its rows are only
//! added to.

ghost use Rattle.std.specs.Prelude.{◌≡◌, ℕ, ◌+◌, ◌≤◌, [], AllPairs, IsTrue, Some};
ghost use Rattle.tag.specs.LogicalTime.{LogicalTime};
ghost use Rattle.network.specs.Event.{Event};
ghost use Rattle.network.specs.Network.{Network};
ghost use Rattle.network.specs.Lawful.{IsLawful};
ghost use Rattle.network.specs.Undivided.{is_turn_before, first_of_turns, undivided_after, whole, part};
ghost use Rattle.network_laws.specs.Settled.{is_row_before, BeginsWith, is_settled, IsEnough};

/// Each turn is at a later (tag, rank) than the turn before it.
pub fn each_turn_is_later()
    ensures next { (n : Network) → IsLawful n → (turns : ℕ) (e f : Event) →
        first_of_turns n (undivided_after n turns).pending ≡ Some e
        → first_of_turns n (undivided_after n (turns + 1)).pending ≡ Some f →
        IsTrue (is_turn_before n e f) }
    ensures rows { (n : Network) → IsLawful n → (turns : ℕ)
        → AllPairs (λ a b. IsTrue (is_row_before n a b)) (whole n turns) }
{}

/// Every reactor is settled at every tag after enough turns: `MOST_REACTORS` for each tag up to it.
pub fn everything_gets_settled()
    ensures { (n : Network) → IsLawful n → (turns reactor : ℕ) (tag : LogicalTime) → IsEnough tag turns
        → IsTrue (is_settled n (undivided_after n turns) reactor tag) }
{}

/// The rows after more turns begin with those after fewer, and so does each reactor's part.
pub fn rows_are_only_added_to()
    ensures all { (n : Network) (turns later : ℕ) → turns ≤ later → BeginsWith (whole n later) (whole n turns) }
    ensures of_one_reactor { (n : Network) (reactor turns later : ℕ) → turns ≤ later
        → BeginsWith (part reactor (whole n later)) (part reactor (whole n turns)) }
{}

/// Where nothing is pending no turn changes anything.
pub fn the_end_is_final()
    ensures { (n : Network) (turns later : ℕ) → turns ≤ later → (undivided_after n turns).pending ≡ []
        → undivided_after n later ≡ undivided_after n turns }
{}
