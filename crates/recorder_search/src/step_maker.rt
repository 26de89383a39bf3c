ghost use Rattle.std.specs.Prelude.{◌≡◌, ℕ, None, IfOk, OnErr};
ghost use Rattle.world_stations.specs.declared.step.Step.TheVariants as Steps;
ghost use Rattle.recorder_search.specs.Motion.{Motion, Placed};

use crate::memory::Memory;
use node::{Event, NodeId};
use world_stations::Step;

/// What makes steps: a world, as far as a search sees it.
pub trait StepMaker: Drop {
    /// Which event a step is, at which node, and the state after it.
    ghost motion: { Motion Self };

    /// Makes a step that is this event at this node, and says which one. With None nothing has changed: where `exact`
    /// is true no step is this event, else a guess may have been wrong. Memory is for a growth that was refused, and
    /// nothing has changed then.
    fn place(&mut self, node: NodeId, event: Event, exact: bool) -> Result<Option<Step>, Memory>
        ensures placed { IfOk result (λ found. Placed motion node event exact self.old self.new found) }
        ensures unchanged { OnErr result (self.new ≡ self.old) };

    /// To forget is no event.
    ghost forgetting: { (state : Self) (federate : ℕ) → motion.occurrence state (Steps.Forget federate) ≡ None };
}
