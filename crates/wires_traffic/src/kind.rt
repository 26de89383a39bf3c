ghost use Rattle.std.specs.Prelude.{◌≡◌};
ghost use Rattle.wires_traffic.specs.Kinds.{kind_of, kind_of_signal};

use signal::{Frame, Signal};

/// What a frame is counted as.
#[derive(Clone, Copy, Debug, PartialEq, Eq)]
pub enum FrameKind {
    Hello,
    /// A NET that goes for the first time.
    Net,
    /// An LTC that goes for the first time.
    Ltc,
    /// A TAG that goes for the first time.
    Tag,
    /// A MSG that goes for the first time.
    Msg,
    /// A signal that went before, whichever it is.
    Again,
    Ack,
    Refuse,
}

impl FrameKind {
    /// What a frame is counted as, where the signals up to this number went before.
    pub fn of(frame: &Frame, before: u64) -> FrameKind
        ensures { result ≡ kind_of before frame.now }
    {
        match frame {
            Frame::Hello(_) => FrameKind::Hello,
            Frame::Data { number, signal, .. } => {
                if *number <= before {
                    FrameKind::Again
                } else {
                    FrameKind::of_signal(signal)
                }
            }
            Frame::Ack { .. } => FrameKind::Ack,
            Frame::Refuse { .. } => FrameKind::Refuse,
        }
    }

    // What a signal is counted as that goes for the first time.
    fn of_signal(signal: &Signal) -> FrameKind
        ensures { result ≡ kind_of_signal signal.now }
    {
        match signal {
            Signal::Net(_) => FrameKind::Net,
            Signal::Ltc(_) => FrameKind::Ltc,
            Signal::Tag(_) => FrameKind::Tag,
            Signal::Msg { .. } => FrameKind::Msg,
        }
    }
}
