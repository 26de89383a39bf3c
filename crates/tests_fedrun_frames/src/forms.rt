//! Each form of a line.
use crate::printed::{printed_of_counter, text};

/// Schedules over the counter, and all that is printed.
const COUNTED: &[(&str, &str)] = &[
    ("", ""),
    ("# a\n\nskip up src\n", ""),
    (
        "deliver up src 9\n",
        "1 deliver up src 9\n  no such frame\n",
    ),
    (
        "\nresend down snk\nadvance src\n",
        "2 resend down snk\n  nothing\n3 advance src\n  nothing\n",
    ),
    (
        "reconnect down snk\ndeliver down snk 1\nreconnect up snk\n",
        "1 reconnect down snk
  sent down snk 1: Hello taken 0
2 deliver down snk 1
  nothing
3 reconnect up snk
  sent up snk 1: Hello taken 0
",
    ),
    // To a greeting all that isn't acknowledged is sent again.
    (
        "announce snk\nreconnect down snk\ndeliver down snk 1\n",
        "1 announce snk
  sent up snk 1: Data 1 NET FOREVER
2 reconnect down snk
  sent down snk 1: Hello taken 0
3 deliver down snk 1
  noted
  sent up snk 2: Data 1 NET FOREVER
",
    ),
    // A signal that was sent again is known, by whichever frame it comes.
    (
        "announce src\nresend up src\ndeliver up src 2\ndeliver up src 1\n",
        "1 announce src
  sent up src 1: Data 1 NET (0, 0)
2 resend up src
  sent up src 2: Data 1 NET (0, 0)
3 deliver up src 2
  taken
  sent down src 1: Ack 1
  sent down src 2: Data 1 TAG (20 ms, 0)
4 deliver up src 1
  taken before
  sent down src 3: Ack 1
",
    ),
    // What src sent last comes first, and is ahead of its turn; what it sent first comes twice.
    (
        "announce src
deliver up src 1
deliver down src 2
advance src
deliver up src 4
deliver up src 3
deliver up src 1
",
        "1 announce src
  sent up src 1: Data 1 NET (0, 0)
2 deliver up src 1
  taken
  sent down src 1: Ack 1
  sent down src 2: Data 1 TAG (20 ms, 0)
3 deliver down src 2
  taken
  sent up src 2: Ack 1
4 advance src
  src (0, 0) [t] -> [y=1]
  sent up src 3: Data 2 MSG (0, 0) snk.x=1
  sent up src 4: Data 3 LTC (0, 0)
5 deliver up src 4
  refused 52
6 deliver up src 3
  taken
  sent down src 3: Ack 2
  sent down snk 1: Data 1 MSG (0, 0) snk.x=1
7 deliver up src 1
  taken before
  sent down src 4: Ack 2
",
    ),
    // The coordinator refuses the greeting of the second incarnation, and answers it; the end of snk refuses what was
    // meant for the first one, and closes by that answer.
    (
        "announce snk
deliver up snk 1
forget snk
reconnect up snk
deliver up snk 2
deliver down snk 1
deliver down snk 2
",
        "1 announce snk
  sent up snk 1: Data 1 NET FOREVER
2 deliver up snk 1
  taken
  sent down snk 1: Ack 1
3 forget snk
  forgotten
4 reconnect up snk
  sent up snk 2: Hello taken 0, incarnation 2
5 deliver up snk 2
  refused 51
  sent down snk 2: Refuse 51, incarnation 2
6 deliver down snk 1
  refused 51
7 deliver down snk 2
  noted
",
    ),
];

#[test]
fn prints_what_was_worked_out(rt: HostRuntime) {
    for (schedule, wanted) in COUNTED {
        let text_of = printed_of_counter(rt.alloc(), schedule, None);
        assert_eq!(rt; text(&text_of), Some(*wanted));
    }
}

/// A closing round after a schedule of two lines: its steps have the number 3. What was lost at line 2 is sent again.
const CLOSED: &str = "1 announce src
  sent up src 1: Data 1 NET (0, 0)
3 resend up src
  sent up src 2: Data 1 NET (0, 0)
3 resend down src
  nothing
3 resend up snk
  nothing
3 resend down snk
  nothing
3 announce src
  nothing
3 advance src
  nothing
3 announce snk
  sent up snk 1: Data 1 NET FOREVER
3 advance snk
  nothing
3 deliver up src 2
  taken
  sent down src 1: Ack 1
  sent down src 2: Data 1 TAG (20 ms, 0)
3 deliver up snk 1
  taken
  sent down snk 1: Ack 1
3 deliver down src 1
  noted
3 deliver down src 2
  taken
  sent up src 3: Ack 1
3 deliver down snk 1
  noted
";

#[test]
fn prints_closing_rounds_with_the_line_after_the_last(rt: HostRuntime) {
    let alloc = rt.alloc();
    let schedule = "announce src\nskip up src\n";
    let closed = printed_of_counter(alloc, schedule, Some(1));
    assert_eq!(rt; text(&closed), Some(CLOSED));
    let unclosed = printed_of_counter(alloc, schedule, Some(0));
    assert_eq!(rt;
        text(&unclosed),
        Some("1 announce src\n  sent up src 1: Data 1 NET (0, 0)\n")
    );
}
