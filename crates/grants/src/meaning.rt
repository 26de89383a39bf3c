//! What a table's records mean, each as the contract of a function with an empty body.

ghost use Rattle.std.specs.Prelude.{◌≡◌, ◌≢◌, ◌↔◌, ℕ, ◌<◌, false, IsTrue, List, length, slice_set};
ghost use Rattle.tag.specs.LogicalTime.{LogicalTime};
ghost use Rattle.network.specs.Connection.{Connection, IsPath};
ghost use Rattle.network.specs.Network.{with_one};
ghost use Rattle.protocol.specs.FederateRecord.{FederateRecord};
ghost use Rattle.protocol.specs.FederateRecords.{federate_record_at, federate_records_listed};
ghost use Rattle.grants.specs.Wiring.{Wiring, IsWiring};
ghost use Rattle.grants.specs.Records.{Records, AreRecords, changed_at, is_eligible_in, with_federate_record};
ghost use Rattle.grants.specs.Looks.{has_path};
ghost use Rattle.grants.specs.Routes.{may_change};

/// Records in a list of which one is replaced are read as those records with one replaced, and are listed so.
pub fn one_federate_record_is_replaced()
    ensures read { (federate_records : List FederateRecord) (i : ℕ) (mine : FederateRecord)
        → i < length federate_records →
        federate_record_at (slice_set federate_records i mine) ≡ with_one (federate_record_at federate_records) i mine }
    ensures listed { (federate_records : List FederateRecord) (i : ℕ) (mine : FederateRecord)
        → i < length federate_records →
        federate_records_listed (length federate_records) (with_one (federate_record_at federate_records) i mine)
        ≡ slice_set federate_records i mine }
{}

/// The paths by which looks are counted are all paths.
pub fn paths_are_counted()
    ensures { (w : Wiring) (i j : ℕ) → IsWiring w
        → IsTrue (has_path w i j) ↔ ((path : List Connection) × IsPath w.connections i path j) }
{}

/// A change of one federate's record leaves alone who is eligible of those that neither are that federate nor hear from
/// it; where its next tag and what it completed stay, of all others; and where the tags in transit alone change, of
/// all.
pub fn others_stay()
    ensures apart { (r : Records) (i j : ℕ) (mine : FederateRecord) → AreRecords r → may_change r.wiring i j ≡ false →
        is_eligible_in (with_federate_record r i mine) j ≡ is_eligible_in r j }
    ensures alone { (r : Records) (i j : ℕ) (mine : FederateRecord) → AreRecords r → i < r.wiring.federates →
        mine.next ≡ (federate_record_at r.federate_records i).next
        → mine.completed ≡ (federate_record_at r.federate_records i).completed → j ≢ i →
        is_eligible_in (with_federate_record r i mine) j ≡ is_eligible_in r j }
    ensures transit { (r : Records) (i j : ℕ) (tags : List LogicalTime) → AreRecords r → i < r.wiring.federates →
        is_eligible_in (changed_at r i (λ s. record s { transit = tags })) j ≡ is_eligible_in r j }
{}
