//! Which of many attempts to connect are told that come to nothing or to a moment's connection, at either side.
ghost use Rattle.std.specs.Prelude.{◌≡◌};
ghost use Rattle.std.specs.Int.{is_power_of_two};
ghost use Rattle.wires_hosts.specs.Attempts as definition;

use crate::dial_fault::DialFault;
use crate::happening::NotLetIn;
use crate::times::QUICK_MS;
use crate::unreached::Unreached;
use std::net::IpAddr;
use std::sync::{Mutex, Wait};

/// How many attempts of one dialer came to nothing for each reason, since one came to a connection. So reasons that take
/// turns, as of a machine that is away, have a row each.
#[derive(Drop)]
pub struct Attempts {
    counts: Mutex<FaultCounts>,
}

impl Attempts {
    /// None was made.
    pub fn new() -> Attempts {
        Attempts {
            counts: Mutex::new(FaultCounts::none()),
        }
    }

    /// One more came to nothing, for this. How many did by now, for the same.
    pub fn fail<R: Wait>(&self, rt: &R, fault: DialFault) -> u64 {
        let mut counts = self.counts.lock(rt);
        counts.add(fault)
    }

    /// One came to a connection.
    pub fn succeed<R: Wait>(&self, rt: &R) {
        let mut counts = self.counts.lock(rt);
        *counts = FaultCounts::none();
    }
}

/// From which machine a connection came that wasn't let in, and why it wasn't.
#[derive(Clone, Copy, Debug, PartialEq, Eq)]
pub struct Refused {
    pub from: IpAddr,
    pub why: NotLetIn,
}

/// Rows of connections that came to a coordinator and weren't let in: of each of the last few machines and reasons how
/// many were.
#[derive(Drop)]
pub struct Refusals {
    rows: [Option<Row>; MOST_ROWS],
    // The place of the row that is given up next, where none is free.
    next: usize,
}

// So many connections came from one machine, and weren't let in for one reason.
#[derive(Clone, Copy)]
struct Row {
    refused: Refused,
    count: u64,
}

// Rows that are kept at most.
const MOST_ROWS: usize = 16;

impl Refusals {
    /// None was refused.
    pub fn new() -> Refusals {
        Refusals {
            rows: [None; MOST_ROWS],
            next: 0,
        }
    }

    /// One more wasn't let in. How many weren't by now, from this machine and for this reason.
    pub fn refuse(&mut self, refused: Refused) -> u64 {
        let mut count = 0;
        for place in self.rows.iter_mut() {
            if let Some(row) = *place {
                if row.refused == refused {
                    count = row.count.saturating_add(1);
                    *place = Some(Row { refused, count });
                }
            }
        }
        if count > 0 {
            return count;
        }
        let place = self.place_of_new();
        if let Some(place) = self.rows.get_mut(place) {
            *place = Some(Row { refused, count: 1 });
        }
        1
    }

    /// One was let in from this machine: its rows are over, and no other one's.
    pub fn let_in(&mut self, from: IpAddr) {
        for place in self.rows.iter_mut() {
            let is_over = match *place {
                Some(row) => row.refused.from == from,
                None => false,
            };
            if is_over {
                *place = None;
            }
        }
    }

    // Where a new row goes: to the first place that is free, or to that of the row that is given up.
    fn place_of_new(&mut self) -> usize {
        if let Some(free) = self.rows.iter().position(|row| row.is_none()) {
            return free;
        }
        let given_up = self.next;
        self.next = given_up.saturating_add(1) % MOST_ROWS;
        given_up
    }
}

/// Whether it is told that so many attempts came to nothing: of the first, the second, the fourth, the eighth
/// and so on, so that whoever is away for a day has few lines to read.
pub fn is_told(count: u64) -> bool
    ensures { result ≡ is_power_of_two count }
{
    count.is_power_of_two()
}

// How many attempts came to nothing for each reason.
#[derive(Clone, Copy)]
struct FaultCounts {
    no_address: u64,
    refused: u64,
    time_over: u64,
    no_way: u64,
    unconnected: u64,
    no_random: u64,
    no_answer: u64,
    not_proved: u64,
    other_files: u64,
    no_such_federate: u64,
    finished: u64,
    not_allowed: u64,
}

impl FaultCounts {
    // None did.
    fn none() -> FaultCounts
        ensures { result ≡ definition.no_faults }
    {
        FaultCounts {
            no_address: 0,
            refused: 0,
            time_over: 0,
            no_way: 0,
            unconnected: 0,
            no_random: 0,
            no_answer: 0,
            not_proved: 0,
            other_files: 0,
            no_such_federate: 0,
            finished: 0,
            not_allowed: 0,
        }
    }

    // One more did, for this. How many did by now, for the same.
    fn add(&mut self, fault: DialFault) -> u64
        ensures one_more { result ≡ definition.with_one (definition.count_of fault self.old) }
        ensures stored { self.new ≡ definition.with_fault fault self.old }
    {
        match fault {
            DialFault::NotConnected(Unreached::NoAddress) => add_one(&mut self.no_address),
            DialFault::NotConnected(Unreached::Refused) => add_one(&mut self.refused),
            DialFault::NotConnected(Unreached::TimeOver) => add_one(&mut self.time_over),
            DialFault::NotConnected(Unreached::NoWay) => add_one(&mut self.no_way),
            DialFault::NotConnected(Unreached::Other) => add_one(&mut self.unconnected),
            DialFault::NoRandom => add_one(&mut self.no_random),
            DialFault::NoAnswer => add_one(&mut self.no_answer),
            DialFault::NotProved => add_one(&mut self.not_proved),
            DialFault::OtherFiles => add_one(&mut self.other_files),
            DialFault::NoSuchFederate => add_one(&mut self.no_such_federate),
            DialFault::Finished => add_one(&mut self.finished),
            DialFault::NotAllowed => add_one(&mut self.not_allowed),
        }
    }
}

// One more is counted. How many are by now.
fn add_one(count: &mut u64) -> u64
    ensures stored { count.new ≡ definition.with_one count.old }
    ensures told { result ≡ count.new }
{
    *count = count.saturating_add(1);
    *count
}

/// How many connections in a row stood for a moment alone, where the last stood for so many ms and so many did before
/// it.
pub fn quick_after(stood_ms: u64, count: u64) -> u64
    ensures { result ≡ definition.quick_after stood_ms count }
{
    if stood_ms < QUICK_MS {
        count.saturating_add(1)
    } else {
        1
    }
}

/// Whether two processes of one federate may run, where so many of its connections in a row took another one's place,
/// the last from the same machine or from another one.
pub fn may_be_two(is_same_machine: bool, times: u64) -> bool
    ensures { result ≡ definition.may_be_two is_same_machine times }
{
    !is_same_machine || times >= 4
}
