ghost use Rattle.std.specs.Prelude.{◌≡◌, ◌<◌, All, length};
ghost use Rattle.tag.specs.LogicalTime.{is_before, sum_of};
ghost use Rattle.protocol.specs.Grant.{after_completed};
ghost use Rattle.protocol.specs.FederateRecords.{federate_record_at};
ghost use Rattle.grants.specs.Bounds.{first_incoming, first_upstream};

use crate::federate_record::FederateRecord;
use crate::routes::Upstream;
use plan_paths::Connection;
use tag::{FiniteTag, Tag, lesser, plus, succ};

/// The least tag at which anything of these federates' next turns can arrive, or FOREVER where there are none.
pub fn first_upstream(upstream: &[Upstream], federate_records: &[FederateRecord]) -> Tag
    requires { All (λ u. u.federate < length federate_records.now) upstream.now }
    ensures { result ≡ first_upstream (federate_record_at federate_records.now) upstream.now }
{
    let mut first = Tag::FOREVER;
    for from in upstream {
        first = lesser(arrival_from(from, federate_records), first);
    }
    first
}

/// The least tag at which anything can arrive over these connections that comes after their senders' last LTC, or
/// FOREVER where there are none.
pub fn first_incoming(incoming: &[Connection], federate_records: &[FederateRecord]) -> Tag
    requires { All (λ c. c.source < length federate_records.now) incoming.now }
    ensures { result ≡ first_incoming (federate_record_at federate_records.now) incoming.now }
{
    let mut first = Tag::FOREVER;
    for connection in incoming {
        first = lesser(arrival_over(connection, federate_records), first);
    }
    first
}

/// Whether a tag is before `first_upstream`. It looks no further than at the first arrival that isn't later.
pub fn passes_upstream(tag: Tag, upstream: &[Upstream], federate_records: &[FederateRecord]) -> bool
    requires { All (λ u. u.federate < length federate_records.now) upstream.now }
    ensures { result ≡ is_before tag (first_upstream (federate_record_at federate_records.now) upstream.now) }
{
    for from in upstream {
        if !is_before(tag, arrival_from(from, federate_records)) {
            return false;
        }
    }
    is_before(tag, Tag::FOREVER)
}

/// Whether a tag is before `first_incoming`. It looks no further than at the first arrival that isn't later.
pub fn passes_incoming(
    tag: Tag,
    incoming: &[Connection],
    federate_records: &[FederateRecord],
) -> bool
    requires { All (λ c. c.source < length federate_records.now) incoming.now }
    ensures { result ≡ is_before tag (first_incoming (federate_record_at federate_records.now) incoming.now) }
{
    for connection in incoming {
        if !is_before(tag, arrival_over(connection, federate_records)) {
            return false;
        }
    }
    is_before(tag, Tag::FOREVER)
}

// The first tag at which anything of a federate's next turn can arrive.
fn arrival_from(from: &Upstream, federate_records: &[FederateRecord]) -> Tag
    requires { from.now.federate < length federate_records.now }
    ensures { result ≡ sum_of (federate_record_at federate_records.now from.now.federate).next from.now.delay }
{
    plus(federate_records[from.federate].next(), from.delay)
}

// The first tag at which anything can arrive over a connection that comes after its sender's last LTC.
fn arrival_over(connection: &Connection, federate_records: &[FederateRecord]) -> Tag
    requires { connection.now.source < length federate_records.now }
    ensures { result ≡ sum_of (after_completed
        (federate_record_at federate_records.now connection.now.source).completed) connection.now.delay }
{
    let sent = after_completed(federate_records[connection.source()].completed());
    plus(sent, connection.delay())
}

// The first tag at which a federate's next turn may be, as far as its LTCs tell.
fn after_completed(completed: Option<FiniteTag>) -> Tag
    ensures { result ≡ after_completed completed }
{
    match completed {
        Some(tag) => succ(tag.tag()),
        None => Tag::origin(),
    }
}

pub fn is_before(tag: Tag, other: Tag) -> bool
    ensures { result ≡ is_before tag other }
{
    tag < other
}
