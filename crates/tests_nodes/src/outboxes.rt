//! An outbox by its own calls: more signals than there is room for are refused, and what was reserved can be put.
use link::LinkEnd;
use node::{NodeFault, Outbox};
use signal::Signal;
use std::alloc::Global;
use tag::Tag;

/// The signals that the only end keeps at most.
const ROOM: usize = 2;

// An outbox of one end; None without memory.
fn outbox(alloc: Global) -> Option<Outbox> {
    let mut ends = Vec::with_capacity(alloc, 1).ok()?;
    ends.push(LinkEnd::new(alloc, 0, 1, ROOM)).ok()?;
    Some(Outbox::new(alloc, ends))
}

fn put_one(outbox: &mut Outbox) -> Result<(), NodeFault> {
    outbox.reserve(0, 1)?;
    outbox.put(0, Signal::Net(Tag::FOREVER));
    Ok(())
}

// What each call answers, and how many signals wait behind it.
fn answers(alloc: Global) -> Option<bool> {
    let mut outbox = outbox(alloc)?;
    let is_refused = outbox.reserve(0, ROOM + 1) == Err(NodeFault::NoRoom);
    let is_put = put_one(&mut outbox).is_ok();
    let waiting = outbox.end(0).map(|end| end.unacked());
    Some(is_refused && is_put && waiting == Some(1))
}

#[test]
fn puts_what_was_reserved_and_refuses_more_than_there_is_room_for(rt: HostRuntime) {
    assert_eq!(rt; answers(rt.alloc()), Some(true));
}
