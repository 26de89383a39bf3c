//! A frame that was never sent: a coordinator hears from a federate before it has granted anything, and that federate
//! announces after the grant. Each of the two journals is one that its node may have; no run has both.
use node::{Event, NodeId};
use node_journal::Journal;
use reactor::Rows;
use recorder::{Report, Unproved, audit};
use signal::{Frame, Signal};
use std::alloc::Global;
use tag::{FiniteTag, Tag, Time};
use tests_samples::{Federation, with_loaded};

/// One federate, which runs once.
const ALONE: &str = r#"stop = "0"
[[federate]]
name = "a"
outputs = ["y"]
reaction = [{ triggers = ["startup"], body = ["out.y = 1"] }]
"#;

// The first signal of a link comes.
fn first(signal: Signal) -> Event {
    Event::Frame(
        0,
        Frame::Data {
            incarnation: 1,
            number: 1,
            signal,
        },
    )
}

// What the federate reports: it is granted its first tag, and announces.
fn report(alloc: Global) -> Option<Report> {
    let grant = first(Signal::Tag(FiniteTag::new(Time::zero(), 0)));
    Some(Report {
        federate: 0,
        rows: Rows::new(alloc),
        journal: Journal::of(alloc, &[grant, Event::Announce]).ok()?,
    })
}

// What an audit answers, where the coordinator's journal has that announcement alone.
fn told(alloc: Global, federation: &Federation) -> Option<Unproved> {
    let announcement = first(Signal::Net(Tag::new(Time::zero(), 0)));
    let coordinator = Journal::of(alloc, &[announcement]).ok()?;
    audit(
        alloc,
        federation.plan(),
        federation.programs(),
        federation.inputs(),
        &[report(alloc)?],
        &coordinator,
    )
    .err()
}

#[test]
fn is_stuck_on_a_frame_that_was_never_sent(rt: HostRuntime) {
    let told = with_loaded(
        rt.alloc(),
        ALONE,
        "",
        |federation| told(rt.alloc(), federation),
    );
    assert_eq!(rt; told, Some(Unproved::Stuck(NodeId::Coordinator, 1)));
}
