ghost use Rattle.std.specs.Prelude.{◌≡◌, IfOk};

use crate::memory::Memory;
use crate::node::Node;
use std::alloc::Global;

/// A node that can be made again as it was made.
pub trait Blank: Node {
    /// A node of which nothing was asked, made from what this one was made from.
    fn blank(&self, alloc: Global) -> Result<Self, Memory>
        ensures { IfOk result (λ node. node ≡ Self.core.initial self.now) };
}
