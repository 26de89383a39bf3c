//! The definitions on small federations: what comes out is what should.
ghost use Rattle.std.specs.Prelude.{◌≡◌, [], None, Some};
ghost use Rattle.network.specs.Undivided.{whole};
ghost use Rattle.plan_network.specs.Network.{network_of};
ghost use Rattle.plan_network.specs.Examples.{counter, counter_programs, counter_rows, late_counter_rows, meeting};
ghost use Rattle.plan_network.specs.Examples.{meeting_programs, meeting_rows, loop, loop_programs, loop_rows, chain};
ghost use Rattle.plan_network.specs.Examples.{chain_programs, chain_inputs, chain_rows};

/// A counter and the sum of its counts, at one tag each time.
pub fn counter_counts()
    ensures { whole (network_of (counter None) counter_programs []) 6 ≡ counter_rows }
{}

/// Where nothing is pending a turn changes nothing.
pub fn counter_ends()
    ensures { whole (network_of (counter None) counter_programs []) 7 ≡ counter_rows }
{}

/// With a delay of 0 each sum is a microstep later, and the one after stop never comes.
pub fn late_counter_counts()
    ensures { whole (network_of (counter (Some 0)) counter_programs []) 6 ≡ late_counter_rows }
{}

/// Two messages arrive at one tag: the one that was sent later is present.
pub fn later_message_wins()
    ensures { whole (network_of meeting meeting_programs []) 4 ≡ meeting_rows }
{}

/// A federate's output comes back to it until stop.
pub fn loop_goes_on_until_stop()
    ensures { whole (network_of loop loop_programs []) 4 ≡ loop_rows }
{}

/// A chain of three with a scheduled action, a timer and a recorded input.
pub fn chain_takes_input()
    ensures { whole (network_of chain chain_programs chain_inputs) 8 ≡ chain_rows }
{}
