//! TAGs, and all that goes out in one step.
ghost use Rattle.std.specs.Prelude.{◌≡◌, ◌≢◌, ◌<◌, ◌++◌, All, OnOk, Ok, Err, if◌then◌else◌};
ghost use Rattle.node.specs.declared.fault.NodeFault.TheVariants as Faults;
ghost use Rattle.node.specs.Mail.{all_posted, lacks_room};
ghost use Rattle.node.specs.Box.{IsReady};
ghost use Rattle.grants.specs.Routes.{affected_by};
ghost use Rattle.coordinator.specs.Sending.{grants_in, all_granted};

use grants::Table;
use node::{NodeFault, Outbox};
use protocol::Post;
use signal::Signal;

/// Sees that all that a step sends can go out: the posts that are there, and then the TAGs to those whom the change of
/// this federate's record made eligible.
pub(crate) fn prepare(
    posts: &mut Vec<Post>,
    table: &Table,
    changed: usize,
    outbox: &mut Outbox,
) -> Result<(), NodeFault>
    requires { changed < table.now.wiring.federates }
    ensures answer { result ≢ Err Faults.Memory
        → result ≡ (if lacks_room outbox.old.mail.ends
        (posts.old.items ++ grants_in table.now (affected_by table.now.wiring changed))
        then Err Faults.NoRoom else Ok tt) }
    ensures posts { OnOk result (posts.new.items ≡ posts.old.items
        ++ grants_in table.now (affected_by table.now.wiring changed)) }
    ensures ready { OnOk result (IsReady outbox.new posts.new.items) }
    ensures mail { outbox.new.mail ≡ outbox.old.mail }
{
    push_grants(posts, table, table.affected_by(changed))?;
    outbox.reserve_all(posts.as_slice())
}

// Adds a TAG to each of these federates that is eligible.
fn push_grants(posts: &mut Vec<Post>, table: &Table, federates: &[usize]) -> Result<(), NodeFault>
    requires { All (λ j. j < table.now.wiring.federates) federates.now }
    ensures posts { OnOk result (posts.new.items ≡ posts.old.items ++ grants_in table.now federates.now) }
    ensures memory { result ≢ Err Faults.Memory → result ≡ Ok tt }
{
    // Nearly always nobody is eligible.
    if !table.has_eligible() {
        return Ok(());
    }
    for &federate in federates {
        if table.eligible(federate) {
            let signal = Signal::Tag(table.grant(federate));
            let peer = federate;
            posts.push(Post { peer, signal })?;
        }
    }
    Ok(())
}

/// Sends these, for which room and memory were reserved, and notes the TAGs among them.
pub(crate) fn send(table: &mut Table, posts: &[Post], outbox: &mut Outbox)
    requires ready { IsReady outbox.old posts.now }
    requires peers { All (λ p. p.peer < table.old.wiring.federates) posts.now }
    ensures wiring { table.new.wiring ≡ table.old.wiring }
    ensures federate_records { table.new.federate_records ≡ all_granted table.old.federate_records posts.now }
    ensures mail { outbox.new.mail ≡ all_posted outbox.old.mail posts.now }
{
    note_grants(table, posts);
    outbox.put_all(posts);
}

// Notes the TAGs among these.
fn note_grants(table: &mut Table, posts: &[Post])
    requires { All (λ p. p.peer < table.old.wiring.federates) posts.now }
    ensures wiring { table.new.wiring ≡ table.old.wiring }
    ensures federate_records { table.new.federate_records ≡ all_granted table.old.federate_records posts.now }
{
    for post in posts {
        if let Signal::Tag(tag) = post.signal {
            table.set_granted(post.peer, Some(tag));
        }
    }
}
