ghost use Rattle.std.specs.Prelude.{◌≡◌, ◌<◌, ◌≤◌, ℕ, IfOk, OnOk, OnErr, length};

use crate::broken::Broken;
use std::sync::Wait;

/// One end of a connection: bytes go out, bytes come in. A call may wait for the other end.
pub trait Transport: Drop {
    /// How many of its calls failed so far.
    ghost failures: { Self → ℕ };

    /// Sends all of these bytes.
    fn send<R: Wait>(&mut self, rt: &R, bytes: &[u8]) -> Result<(), Broken>
        ensures sent { OnOk result (failures self.new ≡ failures self.old) }
        ensures broken { OnErr result (failures self.old < failures self.new) };

    /// Waits for bytes, and puts them at the front of the room. Returns how many: 0 at the end of what comes.
    fn recv<R: Wait>(&mut self, rt: &R, room: &mut [u8]) -> Result<usize, Broken>
        ensures came { IfOk result (λ count. count ≤ length room.new) }
        ensures room { length room.new ≡ length room.old }
        ensures received { OnOk result (failures self.new ≡ failures self.old) }
        ensures broken { OnErr result (failures self.old < failures self.new) };

    /// Ends what this end sends: after it the other end reads what was sent, and then the end.
    fn finish<R: Wait>(&mut self, rt: &R)
        ensures { failures self.new ≡ failures self.old };
}
