ghost use Rattle.std.specs.Prelude.{◌≡◌};
ghost use Rattle.wires_traffic.specs.Kinds.{number_of};
ghost use Rattle.wires_traffic.specs.Sums.{count_of, kept, no_frames, sum_of_frames, with_one};
ghost use Rattle.wires_traffic.specs.declared.kind.FrameKind.{FrameKind as IsKind};

use crate::kind::FrameKind;
use signal::Frame;

/// Frames, counted by kind.
#[derive(Clone, Copy, Debug, PartialEq, Eq)]
pub struct FrameCounts {
    pub hello: u64,
    pub net: u64,
    pub ltc: u64,
    pub tag: u64,
    pub msg: u64,
    /// Signals that went before, whichever they are.
    pub again: u64,
    pub ack: u64,
    pub refuse: u64,
}

impl FrameCounts {
    /// Of no frames.
    pub fn none() -> FrameCounts
        ensures { result ≡ no_frames }
    {
        FrameCounts {
            hello: 0,
            net: 0,
            ltc: 0,
            tag: 0,
            msg: 0,
            again: 0,
            ack: 0,
            refuse: 0,
        }
    }

    /// Of these frames, where the signals up to this number went before.
    pub fn of(frames: &[Frame], before: u64) -> FrameCounts
        ensures { (kind : IsKind) → count_of kind result ≡ kept (number_of kind before frames.now) }
    {
        let mut counts = FrameCounts::none();
        for frame in frames {
            counts.add(FrameKind::of(frame, before));
        }
        counts
    }

    /// One more frame, of this kind.
    pub fn add(&mut self, kind: FrameKind)
        ensures { self.new ≡ with_one kind self.old }
    {
        match kind {
            FrameKind::Hello => self.hello = self.hello.saturating_add(1),
            FrameKind::Net => self.net = self.net.saturating_add(1),
            FrameKind::Ltc => self.ltc = self.ltc.saturating_add(1),
            FrameKind::Tag => self.tag = self.tag.saturating_add(1),
            FrameKind::Msg => self.msg = self.msg.saturating_add(1),
            FrameKind::Again => self.again = self.again.saturating_add(1),
            FrameKind::Ack => self.ack = self.ack.saturating_add(1),
            FrameKind::Refuse => self.refuse = self.refuse.saturating_add(1),
        }
    }

    /// Both together.
    pub fn plus(self, other: FrameCounts) -> FrameCounts
        ensures { result ≡ sum_of_frames self other }
    {
        FrameCounts {
            hello: self.hello.saturating_add(other.hello),
            net: self.net.saturating_add(other.net),
            ltc: self.ltc.saturating_add(other.ltc),
            tag: self.tag.saturating_add(other.tag),
            msg: self.msg.saturating_add(other.msg),
            again: self.again.saturating_add(other.again),
            ack: self.ack.saturating_add(other.ack),
            refuse: self.refuse.saturating_add(other.refuse),
        }
    }
}
