//! What holds of texts that are escaped. The function is a law: it does nothing.
ghost use Rattle.std.specs.Prelude.{IsTrue, ℕ, List};
ghost use Rattle.std.specs.List.{list_all};
ghost use Rattle.files_pictures.specs.Escaped.{escaped, is_harmless};

/// Whatever a text is: escaped it has none of the characters by which tags begin and end, and none of the quotes
/// between which their attributes stand.
#[tactic(none)]
pub fn escaped_texts_have_no_tags()
    ensures { (text : List ℕ) → IsTrue (list_all is_harmless (escaped text)) }
{}
