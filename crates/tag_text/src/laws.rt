//! The laws of durations as text: each function's contract is one, for all texts and times.

ghost use Rattle.std.specs.Prelude.{◌≡◌, ℕ, ◌^◌, ◌<◌, List};
ghost use Rattle.tag_text.specs.Duration.{Spells};
ghost use Rattle.tag.specs.Printed.{printed_time};

/// A text is a duration of at most one length.
pub fn texts_spell_one_duration()
    ensures { (text : List ℕ) (value other : ℕ) → Spells text value → Spells text other → value ≡ other }
{}

/// `parse_duration` reads back what a time prints.
pub fn printed_times_spell_themselves()
    ensures { (time : ℕ) → time < 2 ^ 62 → Spells (printed_time time) time }
{}
