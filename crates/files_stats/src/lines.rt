//! The lines of a table.
use std::fmt;
use wires_traffic::FrameCounts;

/// A key with its number.
#[derive(Drop)]
pub(crate) struct Line(pub &'static str, pub u64);

impl fmt::Display for Line {
    ghost use Rattle.std.specs.Prelude.{Some};
    ghost use Rattle.files_stats.specs.Stats.{line_text};

    ghost output = { λ line. Some (line_text line.0.now line.1) };

    fn fmt<W: fmt::Write>(&self, f: &mut fmt::Formatter<W>) -> fmt::Result {
        let key = self.0;
        let value = self.1;
        write!(f, "{key} = {value}\n")
    }
}

/// The frames of each kind.
#[derive(Drop)]
pub(crate) struct FrameLines(pub FrameCounts);

impl fmt::Display for FrameLines {
    ghost use Rattle.std.specs.Prelude.{Some};
    ghost use Rattle.files_stats.specs.Stats.{frames_text};

    ghost output = { λ lines. Some (frames_text lines.0) };

    fn fmt<W: fmt::Write>(&self, f: &mut fmt::Formatter<W>) -> fmt::Result {
        let signals = SignalLines(self.0);
        let others = OtherLines(self.0);
        write!(f, "{signals}{others}")
    }
}

// Signals that go for the first time.
#[derive(Drop)]
struct SignalLines(FrameCounts);

impl fmt::Display for SignalLines {
    ghost use Rattle.std.specs.Prelude.{Some};
    ghost use Rattle.files_stats.specs.Stats.{signals_text};

    ghost output = { λ lines. Some (signals_text lines.0) };

    fn fmt<W: fmt::Write>(&self, f: &mut fmt::Formatter<W>) -> fmt::Result {
        let net = Line("net", self.0.net);
        let ltc = Line("ltc", self.0.ltc);
        let tag = Line("tag", self.0.tag);
        let msg = Line("msg", self.0.msg);
        write!(f, "{net}{ltc}{tag}{msg}")
    }
}

// Signals that went before, and frames that are no signals.
#[derive(Drop)]
struct OtherLines(FrameCounts);

impl fmt::Display for OtherLines {
    ghost use Rattle.std.specs.Prelude.{Some};
    ghost use Rattle.files_stats.specs.Stats.{others_text};

    ghost output = { λ lines. Some (others_text lines.0) };

    fn fmt<W: fmt::Write>(&self, f: &mut fmt::Formatter<W>) -> fmt::Result {
        let again = Line("again", self.0.again);
        let hello = Line("hello", self.0.hello);
        let ack = Line("ack", self.0.ack);
        let refuse = Line("refuse", self.0.refuse);
        write!(f, "{again}{hello}{ack}{refuse}")
    }
}
