//! What each side keeps by itself, whatever signals the other sends, lying ones too; and that what it sends is in
//! order.

ghost use Rattle.std.specs.Prelude.{◌≡◌, ℕ, ◌&&◌, ◌++◌, IsTrue, List, Option};
ghost use Rattle.tag.specs.LogicalTime.{LogicalTime};
ghost use Rattle.network.specs.Network.{Network};
ghost use Rattle.network.specs.Lawful.{IsLawful};
ghost use Rattle.network.specs.Tables.{Table};
ghost use Rattle.signal.specs.Signal.{IsSignal};
ghost use Rattle.signal.specs.declared.signal.Signal.{Signal};
ghost use Rattle.protocol.specs.Outcome.{IfDone};
ghost use Rattle.protocol.specs.Federate.{Federate, initial_federate, federate_accepts, federate_announces};
ghost use Rattle.protocol.specs.Federate.{federate_advances};
ghost use Rattle.protocol.specs.FederateRecord.{FederateRecord, initial_federate_record};
ghost use Rattle.protocol.specs.Grant.{Rule, IsSafeRule};
ghost use Rattle.protocol.specs.Coordinator.{coordinator_accepts};
ghost use Rattle.protocol.specs.Machine.{sent_to};
ghost use Rattle.protocol.specs.KeptAlone.{IsFederate, IsFederateRecord, is_of_turn, may_go_up, completed_by_ltcs};
ghost use Rattle.protocol.specs.KeptAlone.{is_of_step, may_go_down, granted_by_tags};

/// A federate stays a federate at each step, whatever signals come.
pub fn a_federate_stays_one()
    ensures initial { (n : Network) (j : ℕ) → IsLawful n → IsFederate n j (initial_federate n j) }
    ensures accept { (n : Network) (j : ℕ) (f : Federate) (signal : Signal) → IsLawful n → IsSignal signal
        → IsFederate n j f →
        IfDone (federate_accepts n j f signal) (λ made. IsFederate n j made.after) }
    ensures announce { (n : Network) (j : ℕ) (f : Federate) → IsFederate n j f →
        IfDone (federate_announces f) (λ made. IsFederate n j made.after) }
    ensures advance { (n : Network) (j : ℕ) (f : Federate) → IsLawful n → IsFederate n j f →
        IfDone (federate_advances n j f) (λ made. IsFederate n j made.after) }
{}

/// What a federate sends is in order: its LTCs rise, and each message is later than every LTC before it. By an advance
/// it sends messages, and then one LTC, of what it has completed then.
pub fn a_federate_sends_in_order()
    ensures accept { (n : Network) (j : ℕ) (f : Federate) (signal : Signal) → IfDone (federate_accepts n j f signal)
        (λ made. IsTrue (may_go_up f.completed made.sent)
        × (made.after.completed ≡ completed_by_ltcs f.completed made.sent)) }
    ensures announce { (f : Federate) → IfDone (federate_announces f)
        (λ made. IsTrue (may_go_up f.completed made.sent)
        × (made.after.completed ≡ completed_by_ltcs f.completed made.sent)) }
    ensures advance { (n : Network) (j : ℕ) (f : Federate) → IsFederate n j f → IfDone (federate_advances n j f)
        (λ made. IsTrue (is_of_turn made.sent) × IsTrue (may_go_up f.completed made.sent)
        × (made.after.completed ≡ completed_by_ltcs f.completed made.sent)) }
{}

/// What the coordinator knows of each federate stays as it should, whatever signals come, by any rule that grants what
/// is safe.
pub fn federate_records_stay()
    ensures initial { IsFederateRecord initial_federate_record }
    ensures accept { (n : Network) (table : Table) (rule : Rule) (federate_records : ℕ → FederateRecord) (i : ℕ)
        (signal : Signal) → IsSafeRule n table rule →
        IsSignal signal → ((j : ℕ) → IsFederateRecord (federate_records j)) →
        IfDone (coordinator_accepts n rule federate_records i signal)
        (λ made. (j : ℕ) → IsFederateRecord (made.after j)) }
{}

/// In one step the coordinator sends each federate at most one message, and then at most one TAG. Both are later than
/// what it was granted before, and the TAG is what it is granted then.
pub fn the_coordinator_sends_in_order()
    ensures { (n : Network) (table : Table) (rule : Rule) (federate_records : ℕ → FederateRecord) (i : ℕ)
        (signal : Signal) → IsSafeRule n table rule →
        IsSignal signal → ((j : ℕ) → IsFederateRecord (federate_records j))
        → IfDone (coordinator_accepts n rule federate_records i signal)
        (λ made. (j : ℕ) → IsTrue (is_of_step (sent_to j made.sent))
        × IsTrue (may_go_down (federate_records j).granted (sent_to j made.sent)) ×
        ((made.after j).granted ≡ granted_by_tags (federate_records j).granted (sent_to j made.sent))) }
{}

/// What is sent in order by one step, and then by others, is in order as a whole.
pub fn order_goes_on()
    ensures after { (completed : Option LogicalTime) (sent more : List Signal) →
        may_go_up completed (sent ++ more)
        ≡ (may_go_up completed sent && may_go_up (completed_by_ltcs completed sent) more) }
    ensures completed { (completed : Option LogicalTime) (sent more : List Signal) →
        completed_by_ltcs completed (sent ++ more) ≡ completed_by_ltcs (completed_by_ltcs completed sent) more }
    ensures past { (granted : Option LogicalTime) (sent more : List Signal) →
        may_go_down granted (sent ++ more)
        ≡ (may_go_down granted sent && may_go_down (granted_by_tags granted sent) more) }
    ensures granted { (granted : Option LogicalTime) (sent more : List Signal) →
        granted_by_tags granted (sent ++ more) ≡ granted_by_tags (granted_by_tags granted sent) more }
{}
