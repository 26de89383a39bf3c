//! How pictures are written.
use fedrun_draw::{DrawFault, Excerpt, draw_federation, draw_schedule};
use files_script::read_script;
use std::alloc::Global;
use std::io;
use std::io::{ErrorKind, Write};
use tests_samples::{COUNTER, loaded};

/// A writer that takes this many bytes more, and refuses all behind them.
#[derive(Drop)]
struct Narrow {
    room: usize,
    taken: Vec<u8>,
}

impl Write for Narrow {
    fn write(&mut self, bytes: &[u8]) -> io::Result<usize> {
        let count = bytes.len().min(self.room);
        if count == 0 && !bytes.is_empty() {
            return Err(io::Error::from(ErrorKind::Other));
        }
        self.taken.extend_from_slice(&bytes[..count])?;
        self.room = self.room.saturating_sub(count);
        Ok(count)
    }

    fn flush(&mut self) -> io::Result<()> {
        Ok(())
    }
}

// Draws the counter, or a schedule over it; None where it isn't taken.
fn draw(alloc: Global, out: &mut Narrow, schedule: Option<&str>) -> Option<Result<(), DrawFault>> {
    let federation = loaded(alloc, COUNTER, "")?;
    let plan = federation.plan();
    let Some(schedule) = schedule else {
        return Some(draw_federation(alloc, out, plan, None));
    };
    let script = read_script(alloc, schedule.as_bytes(), plan).ok()?;
    let (programs, inputs) = (federation.programs(), federation.inputs());
    Some(draw_schedule(
        alloc,
        out,
        plan,
        programs,
        inputs,
        &script,
        None,
        Excerpt::ALL,
    ))
}

/// More bytes than these pictures have.
const AMPLE: usize = 100_000;

/// What is drawn, the room that there is for it, and a text that the picture has; None where it is refused.
const WRITTEN: &[(Option<&str>, usize, Option<&str>)] = &[
    (None, AMPLE, Some(">t at 0, each 10 ms</text>")),
    (
        Some("announce src\ndeliver up src 1\n"),
        AMPLE,
        Some(">1 NET (0, 0)</text>"),
    ),
    (None, 0, None),
    (None, 1, None),
    (None, 100, None),
    (None, 1_000, None),
    (None, 2_000, None),
];

// Whether these bytes are a file that begins and ends as SVG does, and has this text.
fn is_svg_with(bytes: &[u8], text: &str) -> bool {
    match str::from_utf8(bytes) {
        Ok(svg) => {
            svg.starts_with("<svg xmlns='http://www.w3.org/2000/svg' ")
                && svg.ends_with("</svg>\n")
                && svg.contains(text)
        }
        Err(_) => false,
    }
}

// Whether it is drawn with this text, or the refusal is answered.
fn is_answered(alloc: Global, schedule: Option<&str>, room: usize, text: Option<&str>) -> bool {
    let mut out = Narrow {
        room,
        taken: Vec::new(alloc),
    };
    match (draw(alloc, &mut out, schedule), text) {
        (Some(Ok(())), Some(text)) => is_svg_with(out.taken.as_slice(), text),
        (Some(Err(DrawFault::CannotWrite)), None) => true,
        _ => false,
    }
}

#[test]
fn writes_pictures_and_answers_a_writer_that_refuses(rt: HostRuntime) {
    for (schedule, room, text) in WRITTEN {
        let is_answered = is_answered(rt.alloc(), *schedule, *room, *text);
        assert!(rt; is_answered, "{schedule:?} in {room} bytes");
    }
}
