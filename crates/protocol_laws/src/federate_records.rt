//! The coordinator's records as a list stand for records by number; and when all is finished.

ghost use Rattle.std.specs.Prelude.{◌≡◌, ◌↔◌, ℕ, ◌<◌, IsTrue, List, length};
ghost use Rattle.tag.specs.LogicalTime.{forever};
ghost use Rattle.network.specs.Network.{Network};
ghost use Rattle.network.specs.Wiring.{IsWired};
ghost use Rattle.signal.specs.declared.signal.Signal.{Signal};
ghost use Rattle.protocol.specs.Outcome.{IfDone};
ghost use Rattle.protocol.specs.FederateRecord.{FederateRecord};
ghost use Rattle.protocol.specs.Grant.{Rule};
ghost use Rattle.protocol.specs.Coordinator.{coordinator_accepts};
ghost use Rattle.protocol.specs.FederateRecords.{federate_record_at, federate_records_listed, is_finished};

/// A list of records is read by number, records by number are listed, and one is the other's inverse. A step of the
/// coordinator on a list, one record for each federate, leaves all records as the list after it is read.
pub fn lists_stand_for_federate_records()
    ensures read { (count : ℕ) (federate_records : ℕ → FederateRecord) (j : ℕ) → j < count
        → federate_record_at (federate_records_listed count federate_records) j ≡ federate_records j }
    ensures back { (federate_records : List FederateRecord)
        → federate_records_listed (length federate_records) (federate_record_at federate_records) ≡ federate_records }
    ensures length { (count : ℕ) (federate_records : ℕ → FederateRecord)
        → length (federate_records_listed count federate_records) ≡ count }
    ensures accept { (n : Network) (rule : Rule) (federate_records : List FederateRecord) (i : ℕ) (signal : Signal)
        → IsWired n → i < n.reactors →
        length federate_records ≡ n.reactors
        → IfDone (coordinator_accepts n rule (federate_record_at federate_records) i signal)
        (λ made. federate_record_at (federate_records_listed n.reactors made.after) ≡ made.after) }
{}

/// All is finished exactly where every federate has announced and has FOREVER as its next tag.
pub fn finished_is_forever()
    ensures { (n : Network) (federate_records : ℕ → FederateRecord) → IsTrue (is_finished n federate_records) ↔
        ((j : ℕ) → j < n.reactors → IsTrue (federate_records j).announced × ((federate_records j).next ≡ forever)) }
{}
