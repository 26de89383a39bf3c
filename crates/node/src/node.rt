ghost use Rattle.std.specs.Prelude.{◌≡◌, ◌≢◌, ◌↔◌, ℕ, Bool, IsTrue, List};
ghost use Rattle.protocol.specs.Outcome.{Nothing};
ghost use Rattle.node.specs.Core.{Core, IsCore, IsCall, Allows, SendsOnly};
ghost use Rattle.node.specs.declared.fault.NodeFault.TheVariants as Faults;

use crate::fault::NodeFault;
use crate::outbox::Outbox;
use signal::Signal;

/// A node of a federation, behind link ends that it doesn't see: signals come, and signals go to its outbox.
///
/// Each call answers whether it changed or sent anything. A call that answers a fault changed nothing.
pub trait Node: Drop {
    /// What a node's history consists of.
    type Row;

    /// A history: rows, oldest first.
    type Rows;

    ghost listed: { Self.Rows → List Self.Row };

    ghost HUB: { Bool };

    /// Its step functions, of what a caller sees of it, which stands for the node itself in every clause.
    ghost core: { Core Self Self.Row };

    /// Takes a peer's signal.
    fn accept(
        &mut self,
        peer: usize,
        signal: Signal,
        outbox: &mut Outbox,
    ) -> Result<bool, NodeFault>
        ensures call { result ≢ Err Faults.Memory
            → IsCall self.old self.new outbox.old.mail outbox.new.mail result (core.accept self.old peer signal) }
        ensures memory { result ≡ Err Faults.Memory
            → (self.new ≡ self.old) × (outbox.new.mail ≡ outbox.old.mail) × Allows (core.accept self.old peer signal) }
        ensures lawful { SendsOnly (core.may_send self.old) (core.accept self.old peer signal) };

    /// Says what comes next.
    fn announce(&mut self, outbox: &mut Outbox) -> Result<bool, NodeFault>
        ensures call { result ≢ Err Faults.Memory
            → IsCall self.old self.new outbox.old.mail outbox.new.mail result (core.announce self.old) }
        ensures memory { result ≡ Err Faults.Memory
            → (self.new ≡ self.old) × (outbox.new.mail ≡ outbox.old.mail) × Allows (core.announce self.old) }
        ensures lawful { SendsOnly (core.may_send self.old) (core.announce self.old) };

    /// Runs what comes next, if it may.
    fn advance(&mut self, outbox: &mut Outbox) -> Result<bool, NodeFault>
        ensures call { result ≢ Err Faults.Memory
            → IsCall self.old self.new outbox.old.mail outbox.new.mail result (core.advance self.old) }
        ensures memory { result ≡ Err Faults.Memory
            → (self.new ≡ self.old) × (outbox.new.mail ≡ outbox.old.mail) × Allows (core.advance self.old) }
        ensures lawful { SendsOnly (core.may_send self.old) (core.advance self.old) };

    /// Whether `announce` would do nothing, whatever memory and room there is. To ask takes no memory.
    fn has_nothing_to_say(&self) -> bool
        ensures { IsTrue result ↔ (core.announce self.now ≡ Nothing) };

    /// Whether `advance` would do nothing, whatever memory and room there is. To ask takes no memory.
    fn has_nothing_to_run(&self) -> bool
        ensures { IsTrue result ↔ (core.advance self.now ≡ Nothing) };

    /// Whether it is the coordinator, which alone answers a Hello of another incarnation: by a Refuse.
    fn is_coordinator(&self) -> bool
        ensures { result ≡ HUB };

    /// Its history so far.
    fn rows(&self) -> &Self::Rows
        ensures { listed result.now ≡ core.rows self.now };

    /// Whether nothing is left to do in the whole federation, as far as this node knows.
    fn finished(&self) -> bool
        ensures { result ≡ core.finished self.now };

    /// Rows are only added, and what it was made from stays.
    ghost goes_on: { IsCore core };
}
