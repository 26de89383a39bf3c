//! Whole traces, read by the kit's JSON reader: each event has what the format asks for.
use crate::traced::traced;
use serde_json::Value;
use std::alloc::Global;

/// A schedule, closing rounds, and how many steps there are.
const TRACES: &[(&str, Option<u32>, usize)] = &[
    (
        "announce src\ndeliver up src 1\ndeliver down src 2\nadvance src\ndeliver up src 4\ndeliver up src 3\n\
        deliver up src 1\nround\nround\nround\n",
        None,
        63,
    ),
    ("", None, 0),
    ("announce src\nskip up src\n", Some(1), 14),
    // What comes before it is sent, and again after that: no arrow ends at the first.
    (
        "deliver up src 1\nannounce src\ndeliver up src 1\nresend up src\ndeliver up src 2\ndeliver up src 1\n",
        None,
        6,
    ),
    (
        "announce src\nforget src\nannounce src\nreconnect up src\nreconnect down src\ndeliver up src 3\n\
        deliver up src 2\ndeliver up src 1\ndeliver down src 1\n",
        None,
        9,
    ),
];

fn text<'a>(event: &'a Value, name: &str) -> &'a str {
    match event.get(name) {
        Some(value) => value.as_str().unwrap_or(""),
        None => "",
    }
}

fn number(event: &Value, name: &str) -> Option<u64> {
    event.get(name)?.as_u64()
}

fn is_kind(event: &Value, kind: &str) -> bool {
    text(event, "ph") == kind
}

// Whether an event has a name, and stands somewhere.
fn has_place(event: &Value) -> bool {
    text(event, "name") != ""
        && number(event, "pid") == Some(1)
        && number(event, "tid") > Some(0)
        && number(event, "ts").is_some()
        && event.get("args").is_some()
}

// Whether it has what its kind needs.
fn has_fields(event: &Value) -> bool {
    match text(event, "ph") {
        "M" => number(event, "ts") == Some(0),
        "X" => number(event, "dur") > Some(0),
        "s" => number(event, "id").is_some(),
        "f" => number(event, "id").is_some() && text(event, "bp") == "e",
        "i" => text(event, "s") == "t",
        _ => false,
    }
}

// Whether both are ends of one arrow.
fn is_partner(event: &Value, kind: &str, other: &Value) -> bool {
    is_kind(event, kind)
        && number(event, "id") == number(other, "id")
        && text(event, "name") == text(other, "name")
        && text(event, "cat") == text(other, "cat")
}

fn count(events: &[Value], kind: &str, other: &Value) -> usize {
    events
        .iter()
        .filter(|event| is_partner(event, kind, other))
        .count()
}

// Whether an end of an arrow has just one other end, on its right side.
fn has_partner(before: &[Value], event: &Value, after: &[Value]) -> bool {
    match text(event, "ph") {
        "s" => count(before, "f", event) == 0 && count(after, "f", event) == 1,
        "f" => count(before, "s", event) == 1 && count(after, "s", event) == 0,
        _ => true,
    }
}

// Whether a slice stands where an event does, to which a viewer binds it.
fn is_bound(events: &[Value], event: &Value) -> bool {
    is_kind(event, "M")
        || events.iter().any(|slice| {
            is_kind(slice, "X")
                && number(slice, "tid") == number(event, "tid")
                && number(slice, "ts") == number(event, "ts")
        })
}

fn is_sound(events: &[Value], place: usize, event: &Value) -> bool {
    let (before, rest) = events.split_at(place.min(events.len()));
    let after = rest.get(1..).unwrap_or(&[]);
    let is_in_order = match before.last() {
        Some(last) => number(last, "ts") <= number(event, "ts"),
        None => true,
    };
    has_place(event)
        && has_fields(event)
        && has_partner(before, event, after)
        && is_bound(events, event)
        && is_in_order
}

// The first event that isn't sound, or how many slices there are.
fn looked_at(alloc: Global, text: &str) -> Result<usize, usize> {
    let Ok(value) = Value::from_str(alloc, text) else {
        return Err(0);
    };
    let Some(events) = value.as_array() else {
        return Err(0);
    };
    for (place, event) in events.as_slice().iter().enumerate() {
        if !is_sound(events.as_slice(), place, event) {
            return Err(place);
        }
    }
    Ok(
        events
            .as_slice()
            .iter()
            .filter(|event| is_kind(event, "X"))
            .count(),
    )
}

#[test]
fn has_what_the_format_asks_for(rt: HostRuntime) {
    let alloc = rt.alloc();
    for (schedule, closing, steps) in TRACES {
        let text = traced(alloc, schedule, *closing).unwrap_or(String::new(alloc));
        assert_eq!(rt; looked_at(alloc, text.as_str()), Ok(*steps));
    }
}
