ghost use Rattle.std.specs.Prelude.{◌≡◌, ◌<◌, ◌≤◌, ℕ, List, [], ◌∷◌, Option, None, IfOk, IfSome, length, vec_len};
ghost use Rattle.fedrun_files.specs.Contents.{AreBytesOf};
ghost use Rattle.fedrun_files.specs.declared.named.FileFault.TheVariants.{OverLimit as over_limit};

/// Why a file's bytes can't be had. Nothing of them is kept.
#[derive(Clone, Copy, Debug, PartialEq, Eq)]
pub enum FileFault {
    /// It isn't there, or can't be opened or read.
    Unreadable,
    /// It has more bytes than were asked for at most.
    OverLimit,
    /// An allocation failed.
    Memory,
}

/// Files by name.
pub trait Files {
    ghost use Rattle.fedrun_files.specs.Answers.{Answer, Answers, answer_of};

    // The bytes of each file, where they are known.
    ghost contents: { Self → List ℕ → Option (List ℕ) } = { λ _ _. None };

    // What was answered so far, oldest first, where that is known.
    ghost answers: { Self → Option (List Answer) } = { λ _. None };

    /// All bytes of a file that has at most this many.
    fn bytes(&mut self, name: &str, most: usize) -> Result<Vec<u8>, FileFault>
        ensures same { contents self.new ≡ contents self.old }
        ensures whole { IfOk result (λ bytes. AreBytesOf (contents self.old name.now) bytes.items) }
        ensures few { IfOk result (λ bytes. vec_len bytes ≤ most) }
        ensures over { result ≡ Err over_limit → IfSome (contents self.old name.now) (λ bytes. most < length bytes) }
        ensures answered { Answers (answers self.old) (answers self.new) (answer_of name.now result ∷ []) };
}
