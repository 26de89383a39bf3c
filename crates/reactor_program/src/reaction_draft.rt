use plan_names::Names;

/// A reaction as it is declared: the texts of its triggers and of its body lines.
#[derive(Drop)]
pub struct ReactionDraft {
    pub triggers: Names,
    pub body: Names,
}
