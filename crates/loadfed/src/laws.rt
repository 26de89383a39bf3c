//! What a file's bytes say, they say once.

ghost use Rattle.std.specs.Prelude.{◌≡◌, ℕ, List};
ghost use Rattle.plan.specs.declared.draft.Draft.{Draft};
ghost use Rattle.plan.specs.declared.input.Input.{Input};
ghost use Rattle.reactor_program.specs.Behaviour.{Behaviour};
ghost use Rattle.loadfed.specs.Shape.{ProgramDraft};
ghost use Rattle.loadfed.specs.Loaded.{SaysDraft, IsFederationFile};
ghost use Rattle.loadfed.specs.InputShape.{SaysInputFile};

/// A file declares one draft at most, legal or not, and one list of states and reactions.
pub fn files_declare_one_draft()
    ensures draft { (bytes : List ℕ) (d other : Draft) (drafts others : List ProgramDraft) → SaysDraft bytes d drafts
        → SaysDraft bytes other others → d ≡ other }
    ensures programs { (bytes : List ℕ) (d other : Draft) (drafts others : List ProgramDraft) → SaysDraft bytes d drafts
        → SaysDraft bytes other others → drafts ≡ others }
{}

/// A file is one federation at most: one draft, with one list of programs.
pub fn files_are_one_federation()
    ensures draft { (bytes : List ℕ) (d other : Draft) (programs others : List Behaviour)
        → IsFederationFile bytes d programs → IsFederationFile bytes other others → d ≡ other }
    ensures programs { (bytes : List ℕ) (d other : Draft) (programs others : List Behaviour)
        → IsFederationFile bytes d programs → IsFederationFile bytes other others → programs ≡ others }
{}

/// A file records one list of inputs at most.
pub fn files_record_one_list_of_inputs()
    ensures { (bytes : List ℕ) (inputs others : List Input) → SaysInputFile bytes inputs → SaysInputFile bytes others
        → inputs ≡ others }
{}
