//! Traces that were worked out by hand, over the counter.
use crate::traced::traced;

/// What src sent comes, and comes again.
const REPEATED: &str = "announce src\ndeliver up src 1\ndeliver up src 1\n";

/// Tracks: coordinator 1, src 2, snk 3. Step 1 sends src's NET, which steps 2 and 3 deliver: two arrows. Step 2 answers
/// with an Ack and grants, and step 3 with an Ack. No step delivers these.
const REPEATED_TRACE: &str = r#"[
{"ph":"M","name":"process_name","pid":1,"tid":1,"ts":0,"args":{"name":"schedule: 1 us is one step"}},
{"ph":"M","name":"thread_name","pid":1,"tid":1,"ts":0,"args":{"name":"coordinator"}},
{"ph":"M","name":"thread_sort_index","pid":1,"tid":1,"ts":0,"args":{"sort_index":1}},
{"ph":"M","name":"thread_name","pid":1,"tid":2,"ts":0,"args":{"name":"src"}},
{"ph":"M","name":"thread_sort_index","pid":1,"tid":2,"ts":0,"args":{"sort_index":2}},
{"ph":"M","name":"thread_name","pid":1,"tid":3,"ts":0,"args":{"name":"snk"}},
{"ph":"M","name":"thread_sort_index","pid":1,"tid":3,"ts":0,"args":{"sort_index":3}},
{"ph":"X","name":"announce done","pid":1,"tid":2,"ts":1,"dur":1,"cat":"step","args":{"line":1,"step":"announce src"}},
{"ph":"s","name":"NET","pid":1,"tid":2,"ts":1,"cat":"frame","id":2,"args":{"frame":"up src 1","number":1,"tag":"(0, 0)","incarnation":1}},
{"ph":"s","name":"NET","pid":1,"tid":2,"ts":1,"cat":"frame","id":3,"args":{"frame":"up src 1","number":1,"tag":"(0, 0)","incarnation":1}},
{"ph":"X","name":"NET taken","pid":1,"tid":1,"ts":2,"dur":1,"cat":"step","args":{"line":2,"step":"deliver up src 1","number":1,"tag":"(0, 0)","incarnation":1}},
{"ph":"f","name":"NET","pid":1,"tid":1,"ts":2,"bp":"e","cat":"frame","id":2,"args":{"frame":"up src 1","number":1,"tag":"(0, 0)","incarnation":1,"ended":"taken"}},
{"ph":"i","name":"Ack never delivered","pid":1,"tid":1,"ts":2,"cat":"frame","s":"t","args":{"frame":"down src 1","taken":1,"incarnation":1}},
{"ph":"i","name":"TAG never delivered","pid":1,"tid":1,"ts":2,"cat":"frame","s":"t","args":{"frame":"down src 2","number":1,"tag":"(20 ms, 0)","incarnation":1}},
{"ph":"X","name":"NET taken before","pid":1,"tid":1,"ts":3,"dur":1,"cat":"step","args":{"line":3,"step":"deliver up src 1","number":1,"tag":"(0, 0)","incarnation":1}},
{"ph":"f","name":"NET","pid":1,"tid":1,"ts":3,"bp":"e","cat":"frame","id":3,"args":{"frame":"up src 1","number":1,"tag":"(0, 0)","incarnation":1,"ended":"taken before"}},
{"ph":"i","name":"Ack never delivered","pid":1,"tid":1,"ts":3,"cat":"frame","s":"t","args":{"frame":"down src 3","taken":1,"incarnation":1}}
]
"#;

#[test]
fn is_as_worked_out_by_hand(rt: HostRuntime) {
    let text = traced(rt.alloc(), REPEATED, None);
    assert_eq!(rt; text.as_ref().map(String::as_str), Some(REPEATED_TRACE));
}

/// Other steps: a frame that isn't there, what does nothing, a federate that forgets, and a greeting of its next
/// incarnation, by which the coordinator begins anew; of closing rounds the number of the line after the last.
const FORGETTING: &str = "deliver up src 9
advance src
forget src
reconnect up src
deliver up src 1
resend down src
";

const FORGETTING_TRACE: &str = r#"
{"ph":"X","name":"deliver no such frame","pid":1,"tid":1,"ts":1,"dur":1,"cat":"step","args":{"line":1,"step":"deliver up src 9"}},
{"ph":"X","name":"advance nothing","pid":1,"tid":2,"ts":2,"dur":1,"cat":"step","args":{"line":2,"step":"advance src"}},
{"ph":"X","name":"forget forgotten","pid":1,"tid":2,"ts":3,"dur":1,"cat":"step","args":{"line":3,"step":"forget src"}},
{"ph":"X","name":"reconnect done","pid":1,"tid":2,"ts":4,"dur":1,"cat":"step","args":{"line":4,"step":"reconnect up src"}},
{"ph":"s","name":"Hello","pid":1,"tid":2,"ts":4,"cat":"frame","id":5,"args":{"frame":"up src 1","taken":0,"incarnation":2}},
"#;

const RESENDING_TRACE: &str = r#"
{"ph":"X","name":"resend nothing","pid":1,"tid":1,"ts":6,"dur":1,"cat":"step","args":{"line":6,"step":"resend down src"}}
]
"#;

/// The turn of src at the eleventh step of two rounds: the first has nine, and src announces before. It is as in the
/// row `src (0, 0) [t] -> [y=1]`; snk hears of it.
const TURN: &str = r#"
{"ph":"X","name":"turn done","pid":1,"tid":2,"ts":11,"dur":1,"cat":"step","args":{"line":2,"step":"advance src","tag":"(0, 0)","inputs":{"t":true},"outputs":{"y":1}}},
{"ph":"s","name":"MSG","pid":1,"tid":2,"ts":11,"cat":"frame","id":15,"args":{"frame":"up src 3","number":2,"tag":"(0, 0)","input":"snk.x","value":1,"incarnation":1}},
"#;

/// Schedules, and a part of the trace of each.
const PARTS: &[(&str, &str)] = &[
    (FORGETTING, FORGETTING_TRACE),
    (FORGETTING, RESENDING_TRACE),
    ("round\nround\n", TURN),
];

#[test]
fn tells_each_kind_of_step(rt: HostRuntime) {
    let alloc = rt.alloc();
    for (schedule, part) in PARTS {
        let text = traced(alloc, schedule, None).unwrap_or(String::new(alloc));
        assert!(rt; text.as_str().contains(*part));
    }
}
