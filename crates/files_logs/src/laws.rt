//! What the definitions of logs keep. Each function's contract is a law; it does nothing.

ghost use Rattle.std.specs.Prelude.{◌≡◌, ◌-◌, ◌<◌, ◌≤◌, ◌||◌, ◌++◌, ℕ, Bool, List, [], Option, length, take};
ghost use Rattle.std.specs.Prelude.{◌^◌, true, false};
ghost use Rattle.std.specs.List.{AllByRecursion};
ghost use Rattle.byteorder.specs.Endian.{big_bytes};
ghost use Rattle.node.specs.declared.event.Event.{Event};
ghost use Rattle.files_reports.specs.declared.file_digests.FileDigests.{FileDigests};
ghost use Rattle.files_logs.specs.declared.layout.TheConstants.{HEAD_SIZE, SIZE_SIZE, SUM_SIZE, MOST_SAID};
ghost use Rattle.files_logs.specs.declared.item.Item.{Item};
ghost use Rattle.files_logs.specs.declared.log_head.LogHead.{LogHead};
ghost use Rattle.files_logs.specs.declared.log.Log.{Log};
ghost use Rattle.files_logs.specs.declared.log_fault.LogFault.TheVariants.{NoLog, Damaged};
ghost use Rattle.files_logs.specs.Blocks.{size_bytes, IsBlock, blocks_bytes, sum_behind, events_in, is_told_by};
ghost use Rattle.files_logs.specs.Log.{head_bytes, head_sum, IsHead, log_bytes, end_bytes, ended_bytes, last_sum};
ghost use Rattle.files_logs.specs.Log.{IsLog, log_of};
ghost use Rattle.files_logs.specs.Front.{is_size};
ghost use Rattle.files_logs.specs.Reading.{IsRead, IsWholeLog, IsLogRead, IsFaultBehind, IsLogFault};
ghost use Rattle.files_logs.specs.Writing.{blocks_for};
ghost use Rattle.files_logs.specs.Cuts.{whole_within, IsTornTail, front_log};

/// What was written is read, with and without its end.
pub fn logs_are_read()
    ensures unended { (head : LogHead) (blocks : List (List Item)) → IsLog head blocks
        → IsRead head (log_bytes head blocks) (log_of head blocks (length (log_bytes head blocks)) false) }
    ensures ended { (head : LogHead) (blocks : List (List Item)) → IsLog head blocks
        → IsRead head (ended_bytes head blocks) (log_of head blocks (length (ended_bytes head blocks)) true) }
{}

/// Bytes are one log.
pub fn one_log()
    ensures { (files : FileDigests) (who : Option ℕ) (rules : ℕ) (bytes : List ℕ) (log other : Log)
        → IsLogRead files who rules bytes log → IsLogRead files who rules bytes other → log ≡ other }
{}

/// Of a log that is cut at any byte behind its head, with its end or without, the blocks are read that are whole before
/// the cut. Of one that is cut in its head nothing is read.
pub fn cuts_are_fronts()
    ensures unended { (head : LogHead) (blocks : List (List Item)) (k : ℕ) → IsLog head blocks → HEAD_SIZE ≤ k
        → IsRead head (take k (log_bytes head blocks)) (front_log head blocks k) }
    ensures ended { (head : LogHead) (blocks : List (List Item)) (k : ℕ) → IsLog head blocks → HEAD_SIZE ≤ k
        → k < length (ended_bytes head blocks)
        → IsRead head (take k (ended_bytes head blocks)) (front_log head blocks k) }
    ensures head { (files : FileDigests) (who : Option ℕ) (rules : ℕ) (bytes : List ℕ) (k : ℕ) → k < HEAD_SIZE
        → IsLogFault files who rules (take k bytes) NoLog }
{}

/// What a crash leaves of what was written last is dropped.
pub fn torn_tails_are_dropped()
    ensures { (head : LogHead) (blocks : List (List Item)) (tail : List ℕ) → IsLog head blocks
        → IsTornTail (last_sum head blocks) tail
        → IsRead head (log_bytes head blocks ++ tail) (log_of head blocks (length (log_bytes head blocks)) false) }
{}

/// Where a size or its check was changed, and another block or the end stands behind its block, the log is damaged, and
/// nothing of it is dropped.
pub fn changed_sizes_are_seen()
    ensures { (head : LogHead) (blocks : List (List Item)) (tail size said behind : List ℕ) (sum next : ℕ)
        → IsLog head blocks → is_size (last_sum head blocks) tail ≡ false
        → tail ≡ size ++ (said ++ (big_bytes SUM_SIZE sum ++ (size_bytes sum next ++ behind)))
        → length size ≡ SIZE_SIZE → sum < 2 ^ 64 → next ≤ MOST_SAID
        → IsFaultBehind head (log_bytes head blocks ++ tail) Damaged }
{}

/// Blocks that are appended behind the last sum of a log make the log of all of them, and their events are behind those
/// before.
#[tactic(auto, using(crate::proofs::Whole::appended_bytes, crate::proofs::Whole::appended_sum, crate::proofs::Whole::appended_events, crate::proofs::Whole::appended_told, crate::proofs::Whole::appended_log))]
pub fn appended_blocks_are_read()
    ensures is_log { (head : LogHead) (blocks more : List (List Item)) → IsLog head blocks
        → AllByRecursion IsBlock more → IsLog head (blocks ++ more) }
    ensures bytes { (head : LogHead) (blocks more : List (List Item))
        → log_bytes head (blocks ++ more) ≡ log_bytes head blocks ++ blocks_bytes (last_sum head blocks) more }
    ensures sum { (head : LogHead) (blocks more : List (List Item))
        → last_sum head (blocks ++ more) ≡ sum_behind (last_sum head blocks) more }
    ensures events { (blocks more : List (List Item)) → events_in (blocks ++ more) ≡ events_in blocks ++ events_in more }
    ensures told { (blocks more : List (List Item))
        → is_told_by (blocks ++ more) ≡ (is_told_by blocks || is_told_by more) }
{}

/// A log whose torn tail is cut off is whole, and says what it said.
pub fn settled_logs_are_whole()
    ensures within { (head : LogHead) (bytes : List ℕ) (log : Log) → IsRead head bytes log → log.whole ≤ length bytes }
    ensures whole { (head : LogHead) (bytes : List ℕ) (log : Log) → IsRead head bytes log
        → IsWholeLog head (take log.whole bytes) log.sum log.journal log.is_told log.is_ended }
{}

/// A head is a log without events. A whole log goes on: with a block behind it it says what that says too, and with an
/// end that the node ended. What a crash leaves of either is dropped.
pub fn logs_go_on()
    ensures begins { (head : LogHead) → IsHead head → IsWholeLog head (head_bytes head) (head_sum head) [] false false }
    ensures goes_on { (head : LogHead) (bytes : List ℕ) (sum : ℕ) (journal : List Event) (told : Bool)
        (events : List Event) (tells : Bool) → IsWholeLog head bytes sum journal told false
        → AllByRecursion IsBlock (blocks_for events tells)
        → IsWholeLog head (bytes ++ blocks_bytes sum (blocks_for events tells))
        (sum_behind sum (blocks_for events tells)) (journal ++ events) (told || tells) false }
    ensures ends { (head : LogHead) (bytes : List ℕ) (sum : ℕ) (journal : List Event) (told : Bool)
        → IsWholeLog head bytes sum journal told false
        → IsWholeLog head (bytes ++ end_bytes sum bytes) sum journal told true }
    ensures torn { (head : LogHead) (bytes : List ℕ) (sum : ℕ) (journal : List Event) (told : Bool) (tail : List ℕ)
        → IsWholeLog head bytes sum journal told false → IsTornTail sum tail
        → IsRead head (bytes ++ tail) (record {
          who = head.who;
          journal = journal;
          is_told = told;
          is_ended = false;
          whole = length bytes;
          sum = sum;
        }) }
{}
