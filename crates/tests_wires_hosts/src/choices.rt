//! How many connections from a machine in a row aren't let in, by worked rows.
use std::net::IpAddr;
use wires_hosts::NotLetIn;
use wires_hosts::attempts::{Refusals, Refused};

/// A connection that comes from a machine to a coordinator.
#[derive(Clone, Copy)]
enum Comes {
    /// It isn't let in, for this: the so manieth of a row.
    Refused(u8, NotLetIn, u64),
    LetIn(u8),
}

// One from this machine that isn't let in, for this.
fn not_let_in(machine: u8, why: NotLetIn) -> Refused {
    Refused {
        from: IpAddr::from([10, 0, 0, machine]),
        why,
    }
}

/// What comes one behind the other.
const CONNECTIONS: &[Comes] = &[
    Comes::Refused(1, NotLetIn::NoProof, 1),
    Comes::Refused(2, NotLetIn::NoProof, 1),
    Comes::Refused(1, NotLetIn::NoHello, 1),
    Comes::Refused(2, NotLetIn::NoProof, 2),
    Comes::Refused(1, NotLetIn::NoProof, 2),
    Comes::LetIn(1),
    Comes::Refused(1, NotLetIn::NoProof, 1),
    Comes::Refused(1, NotLetIn::NoHello, 1),
    Comes::Refused(2, NotLetIn::NoProof, 3),
];

// Whether this one is counted so.
fn is_counted(refusals: &mut Refusals, comes: &Comes) -> bool {
    match *comes {
        Comes::Refused(machine, why, count) => refusals.refuse(not_let_in(machine, why)) == count,
        Comes::LetIn(machine) => {
            refusals.let_in(IpAddr::from([10, 0, 0, machine]));
            true
        }
    }
}

// Whether each of them is.
fn are_counted(comes: &[Comes]) -> bool {
    let mut refusals = Refusals::new();
    for one in comes {
        if !is_counted(&mut refusals, one) {
            return false;
        }
    }
    true
}

#[test]
fn the_rows_of_a_machine_that_is_let_in_are_over_and_no_other_ones(rt: HostRuntime) {
    assert!(rt; are_counted(CONNECTIONS));
}

// One more from this machine isn't let in. How many weren't in a row by now.
fn refuse(refusals: &mut Refusals, machine: u8) -> u64 {
    refusals.refuse(not_let_in(machine, NotLetIn::NoProof))
}

// Sixteen machines aren't let in, of which the fifth is then. The counts of another machine behind them, whose row takes
// the fifth one's place; of the first, whose row goes on; of another one, which takes the first one's place; and of the
// first.
fn counts_of_many() -> [u64; 4] {
    let mut refusals = Refusals::new();
    for machine in 1..17 {
        refuse(&mut refusals, machine);
    }
    refusals.let_in(IpAddr::from([10, 0, 0, 5]));
    [
        refuse(&mut refusals, 17),
        refuse(&mut refusals, 1),
        refuse(&mut refusals, 18),
        refuse(&mut refusals, 1),
    ]
}

#[test]
fn a_row_is_given_up_only_where_no_place_is_free(rt: HostRuntime) {
    assert_eq!(rt; counts_of_many(), [1, 2, 1, 1]);
}
