//! The rows of worked federations, federate by federate unless it is said.

pub const COUNTER_ROWS: &str = "src (0, 0) [t] -> [y=1]
src (10 ms, 0) [t] -> [y=2]
src (20 ms, 0) [t] -> [y=3]
snk (0, 0) [x=1] -> [total=1]
snk (10 ms, 0) [x=2] -> [total=3]
snk (20 ms, 0) [x=3] -> [total=6]
";

/// The undivided program prints these in the same order.
pub const REPLACED_ROWS: &str = "src (0, 0) [startup] -> [y=1]
src (0, 1) [a=2] -> [y=2]
snk (10 ms, 0) [x=2] -> [v=2]
";

/// The undivided program prints these in the same order.
pub const LOOP_ROWS: &str = "loop (0, 0) [startup] -> [y=1]
loop (5 ms, 0) [x=1] -> [y=2]
loop (10 ms, 0) [x=2] -> [y=3]
";

pub const CHAIN_ROWS: &str = "a (10 ms, 0) [t] -> [y=1]
b (10 ms, 0) [x=1] -> []
b (15 ms, 0) [act=7] -> [z=7]
b (100 ms, 0) [p=9] -> [z=9]
c (15 ms, 0) [w=7] -> [o=7]
c (50 ms, 0) [t] -> [o=-1]
c (100 ms, 0) [w=9] -> [o=9]
";

/// The chain's rows in the order of tags, as the undivided program prints them.
pub const CHAIN_ROWS_BY_TAG: &str = "a (10 ms, 0) [t] -> [y=1]
b (10 ms, 0) [x=1] -> []
b (15 ms, 0) [act=7] -> [z=7]
c (15 ms, 0) [w=7] -> [o=7]
c (50 ms, 0) [t] -> [o=-1]
b (100 ms, 0) [p=9] -> [z=9]
c (100 ms, 0) [w=9] -> [o=9]
";

/// The undivided program prints these in the same order.
pub const CARRIED_ROWS: &str = "g (0, 4294967295) [p=1] -> [y=1]
g (1 ns, 0) [p=2] -> [y=2]
h (1 ns, 0) [x=1] -> []
h (1 ns, 1) [x=2] -> []
h (10 ms, 0) [t] -> []
";
