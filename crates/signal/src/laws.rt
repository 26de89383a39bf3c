//! What the definitions of frames as bytes keep. Each function's contract is a law; it does nothing.

ghost use Rattle.std.specs.Prelude.{◌≡◌, ◌<◌, ◌++◌, List, ℕ, All, None, false};
ghost use Rattle.signal.specs.declared.frame.Frame.{Frame};
ghost use Rattle.signal.specs.Frame.{IsFrame, Spells};
ghost use Rattle.signal.specs.Fault.{is_partial, fault_at};
ghost use Rattle.signal.specs.Stream.{Stream, start, fed, Splits, HasNoFrame, Call, Session, bytes_fed, frames_given};
ghost use Rattle.signal.specs.Stream.{TellsStream};
ghost use Rattle.signal.specs.Pieces.{pieces_of, written, ArePiecesOf};

/// No spelling begins another: one list of bytes begins with one spelling at most, and that carries one list of frames.
pub fn one_reading()
    ensures { (a b x y : List ℕ) (frames others : List Frame) → Spells a frames → Spells b others → a ++ x ≡ b ++ y
        → (frames ≡ others) × (a ≡ b) × (x ≡ y) }
{}

/// Where a spelling begins, no fault stands and nothing is missing.
pub fn no_fault_in_a_spelling()
    ensures { (bytes rest : List ℕ) (frames : List Frame) → Spells bytes frames
        → (fault_at (bytes ++ rest) ≡ None) × (is_partial (bytes ++ rest) ≡ false) }
{}

/// What was written is read again, whatever follows.
pub fn written_is_read()
    ensures { (own peer : ℕ) (frames : List Frame) (rest : List ℕ) → 0 < own → own < 256 → All IsFrame frames
        → Splits (written own peer frames ++ rest) frames rest }
{}

/// The pieces in which frames are written are the frames in order. Each is one frame, or the Data frames of 2 to 64
/// signals in a row; and of two neighbours the first has 64, or the second doesn't go on with it.
pub fn pieces_are_longest()
    ensures { (frames : List Frame) → ArePiecesOf frames (pieces_of frames) }
{}

/// There are no other such pieces.
pub fn no_other_pieces()
    ensures { (frames : List Frame) (pieces : List (List Frame)) → ArePiecesOf frames pieces
        → pieces ≡ pieces_of frames }
{}

/// A stream is these frames and then a rest in one way only, if no frame begins the rest.
pub fn one_stream()
    ensures { (bytes : List ℕ) (frames others : List Frame) (rest more : List ℕ) → HasNoFrame rest → HasNoFrame more
        → Splits bytes frames rest → Splits bytes others more → (frames ≡ others) × (rest ≡ more) }
{}

/// What was read before more bytes came, and what is read then, is what the whole stream is.
pub fn read_in_pieces()
    ensures { (a b : List ℕ) (frames others : List Frame) (rest more : List ℕ) → Splits a frames rest
        → Splits (rest ++ b) others more → Splits (a ++ b) (frames ++ others) more }
{}

/// Feeding two pieces is feeding both at once.
pub fn fed_in_pieces()
    ensures { (s : Stream) (a b : List ℕ) → fed (fed s a) b ≡ fed s (a ++ b) }
{}

/// Whatever calls a reader has had: the bytes fed are spellings of the frames given, in order, and of those of a begun
/// Batch that are still to be given, and then the rest; a fault stands in the place of the frame that has it.
pub fn whole_stream()
    ensures { (calls : List Call) (s : Stream) → Session start calls s
        → TellsStream (bytes_fed calls) (frames_given calls) s }
{}
