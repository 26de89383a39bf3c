ghost use Rattle.std.specs.Prelude.{◌≡◌, ℕ, ◌<◌, ◌≤◌, ◌+◌, ◌*◌, ◌/◌, length, List, All, IfOk, IsTrue, true, Some};
ghost use Rattle.std.specs.Prelude.{slice_get, slice_set};
ghost use Rattle.std.specs.Option.{option_map};
ghost use Rattle.whole.specs.declared.nexts.Next.{Next as NextOf};
ghost use Rattle.whole.specs.Construction.{has_target, least_on};
ghost use Rattle.whole.specs.Next.{is_earlier, IsFirstAmong, AreFirsts, renewed};
ghost use Rattle.whole.specs.Targets.{all_shown};
ghost use Rattle.whole.specs.Agendas.{next_on, for_each};
ghost use Rattle.reactor_agenda.specs.Agenda.{Agenda as AgendaOf, IsAgenda};
ghost use Rattle.plan.specs.Federation.{federate_count};

use crate::targets::Target;
use plan::Plan;
use reactor::Memory;
use reactor_agenda::Agenda;
use std::alloc::Global;
use std::marker::Model;
use tag::Tag;

/// How many federates are a block.
const BLOCK: usize = 8;

/// The tag of a federate's next event, FOREVER where there is none, and the federate's rank.
#[derive(Clone, Copy, Debug)]
pub struct Next {
    pub federate: usize,
    pub tag: Tag,
    pub rank: usize,
}

/// When each federate is next. The first of each block is kept beside them, so that the first of all is found without
/// reading all. Contracts see the list.
#[derive(Drop)]
pub struct Nexts {
    nexts: Vec<Next>,
    firsts: Vec<Next>,
}

impl Model for Nexts {
    ghost use Rattle.std.specs.Prelude.{List};
    ghost use Rattle.whole.specs.declared.nexts.Next.{Next as NextOf};
    ghost use Rattle.whole.specs.Next.{AreFirsts};

    ghost Value = { List NextOf };

    ghost view = { λ n. n.nexts.items };

    ghost invariant = { λ n. AreFirsts n.nexts.items n.firsts.items };
}

impl Nexts {
    /// Of the federates of a plan.
    pub fn new(alloc: Global, plan: &Plan, agendas: &[Agenda]) -> Result<Nexts, Memory>
        requires { length agendas.now ≡ federate_count plan.now }
        ensures { IfOk result (λ nexts. (federate : ℕ)
            → slice_get nexts federate ≡ for_each plan.now (next_on plan.now agendas.now) federate) }
    {
        let nexts = nexts_of(alloc, plan, agendas)?;
        let firsts = firsts_of(alloc, nexts.as_slice())?;
        Ok(Nexts { nexts, firsts })
    }

    /// The one whose turn is first.
    pub fn first(&self) -> Next
        requires { 0 < length self.now }
        ensures { IsFirstAmong self.now 0 (length self.now) result }
    {
        let firsts = self.firsts.as_slice();
        first_among(firsts, 0, firsts.len())
    }

    // Gives a federate the tag of its next event.
    fn set_tag(&mut self, federate: usize, tag: Tag)
        requires { federate < length self.old }
        ensures { (next : NextOf) → slice_get self.old federate ≡ Some next
            → self.new ≡ slice_set self.old federate (record next { tag = tag }) }
    {
        if is_at(self.nexts.as_slice(), federate, tag) {
            return;
        }
        set_tag(
            self.nexts.as_mut_slice(),
            self.firsts.as_mut_slice(),
            federate,
            tag,
        );
    }
}

// When each federate of a plan is next.
fn nexts_of(alloc: Global, plan: &Plan, agendas: &[Agenda]) -> Result<Vec<Next>, Memory>
    requires { length agendas.now ≡ federate_count plan.now }
    ensures { IfOk result (λ nexts. (federate : ℕ)
        → slice_get nexts.items federate ≡ for_each plan.now (next_on plan.now agendas.now) federate) }
{
    let mut nexts = Vec::new(alloc);
    for federate in 0..agendas.len() {
        nexts.push(Next {
            federate,
            tag: agendas[federate].least(),
            rank: plan.rank(federate),
        })?;
    }
    Ok(nexts)
}

// By tag, then by rank.
fn is_earlier(first: &Next, second: &Next) -> bool
    ensures { result ≡ is_earlier first.now second.now }
{
    first.tag < second.tag || (first.tag == second.tag && first.rank < second.rank)
}

// The first of those from one place up to another.
fn first_among(nexts: &[Next], low: usize, high: usize) -> Next
    requires some { low < high }
    requires there { high ≤ length nexts.now }
    ensures { IsFirstAmong nexts.now low high result }
{
    let mut first = nexts[low];
    for place in low + 1..high {
        let next = &nexts[place];
        if is_earlier(next, &first) {
            first = *next;
        }
    }
    first
}

// The first of each block.
fn firsts_of(alloc: Global, nexts: &[Next]) -> Result<Vec<Next>, Memory>
    ensures { IfOk result (λ firsts. AreFirsts nexts.now firsts.items) }
{
    let mut firsts = Vec::new(alloc);
    for block in 0..nexts.len().div_ceil(BLOCK) {
        firsts.push(first_of_block(nexts, block))?;
    }
    Ok(firsts)
}

// The first of a block.
fn first_of_block(nexts: &[Next], block: usize) -> Next
    requires { block * 8 < length nexts.now }
    ensures { IsFirstAmong nexts.now (block * 8) (block * 8 + 8) result }
{
    let low = block * BLOCK;
    first_among(nexts, low, nexts.len().min(low + BLOCK))
}

// Whether a federate's next event has this tag already.
fn is_at(nexts: &[Next], federate: usize, tag: Tag) -> bool
    requires { federate < length nexts.now }
    ensures { IsTrue result → (next : NextOf) → slice_get nexts.now federate ≡ Some next → next.tag ≡ tag }
{
    nexts[federate].tag == tag
}

fn set_tag(nexts: &mut [Next], firsts: &mut [Next], federate: usize, tag: Tag)
    requires there { federate < length nexts.old }
    requires firsts { AreFirsts nexts.old firsts.old }
    ensures nexts { (next : NextOf) → slice_get nexts.old federate ≡ Some next
        → nexts.new ≡ slice_set nexts.old federate (record next { tag = tag }) }
    ensures firsts { AreFirsts nexts.new firsts.new }
    ensures length { length nexts.new ≡ length nexts.old }
    ensures as_many { length firsts.new ≡ length firsts.old }
{
    let was = nexts[federate];
    let next = Next { tag, ..was };
    nexts[federate] = next;
    let block = federate / BLOCK;
    firsts[block] = first_after(nexts, block, &firsts[block], &was, &next);
}

// The first of a block in which one is replaced by another; before that `first` was the first. The block is read only
// where the one that was replaced may have been the first.
fn first_after(nexts: &[Next], block: usize, first: &Next, was: &Next, next: &Next) -> Next
    requires { block * 8 < length nexts.now }
    ensures { (before : List NextOf) (federate : ℕ) → federate < length before → federate / 8 ≡ block
        → slice_get before federate ≡ Some was.now → nexts.now ≡ slice_set before federate next.now
        → IsFirstAmong before (block * 8) (block * 8 + 8) first.now
        → IsFirstAmong nexts.now (block * 8) (block * 8 + 8) result }
{
    if is_earlier(next, first) {
        *next
    } else if is_earlier(first, was) {
        *first
    } else {
        first_of_block(nexts, block)
    }
}

/// Gives the targets of a turn the tags of their next events.
pub fn renew(nexts: &mut Nexts, agendas: &[Agenda], targets: &[Target])
    requires there { All (λ t. t.federate < length nexts.old) targets.now }
    requires agendas { All (λ t. t.federate < length agendas.now) targets.now }
    ensures renewed { (federate : ℕ)
        → slice_get nexts.new federate
        ≡ option_map (renewed agendas.now (has_target federate (all_shown targets.now)) federate)
        (slice_get nexts.old federate) }
    ensures length { length nexts.new ≡ length nexts.old }
    ensures known { (federate : ℕ) (a : AgendaOf) → has_target federate (all_shown targets.now) ≡ true
        → slice_get agendas.now federate ≡ Some a → IsAgenda a }
{
    for target in targets {
        let federate = target.federate;
        let agenda = &agendas[federate];
        agenda.invariant();
        let tag = agenda.least();
        nexts.set_tag(federate, tag);
    }
}
