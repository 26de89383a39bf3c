//! Mistakes in sources, each with its line.
use crate::answers::{has_lines, is_answered};
use std::alloc::Global;
use std::test::Fail;
use tests_samples::joined;

/// What stands before the lines of a body, which begin at line 11.
const BEFORE: &str = r#"stop = "0"
[[federate]]
name = "f"
inputs = ["x"]
outputs = ["y"]
actions = ["a"]
state = [{ name = "n", value = 0 }]
[[federate.reaction]]
triggers = ["x"]
body = [
"#;

/// Bodies that are refused.
const BODIES: &[(&str, &str)] = &[
    ("'n = m + 1',", "line 11: 38 BadBody: unknown name"),
    (
        "'n = 1', 'n = 2',\n'out.x = n',",
        "line 12: 38 BadBody: unknown name",
    ),
    (
        "'n = 1', # one\n'n = n < 1 < 3',",
        "line 12: 38 BadBody: no line of a body",
    ),
    (
        "'n = 9223372036854775808 + 1'",
        "line 11: 38 BadBody: a number beyond 64 bits",
    ),
    (
        "\n'n = n / in.x'",
        "line 12: 38 BadBody: divided by what is no constant",
    ),
    (
        "'n = n / 3 / 3'",
        "line 11: 38 BadBody: more than 256 lines",
    ),
    (
        "'n = 1',\n'if n',\n'n = 1'",
        "line 12: 38 BadBody: no end of this if",
    ),
    ("'else'", "line 11: 38 BadBody: no if before it"),
    (
        "'if n',\n'else',\n'else',\n'end'",
        "line 13: 38 BadBody: no if before it",
    ),
    (
        "'let n = 1 + in.x'",
        "line 11: 38 BadBody: a name that is there already",
    ),
    (
        "'if n',\n'let s = n + 1',\n'end',\n'n = s'",
        "line 14: 38 BadBody: unknown name",
    ),
    // In a copy of a class, at the line of the class.
    (
        "]\n[[class]]\nname = \"c\"\n[[class.reaction]]\ntriggers = [\"startup\"]\nbody = [\"n = 1\"]\n[[federate]]\n\
         class = \"c\"\nname = \"g{i}\"\ncount = 2\n[[federate]]\nname = \"h\"\ninputs = [",
        "line 16: 38 BadBody: unknown name",
    ),
];

/// Sources that are refused.
const SOURCES: &[(&str, &str)] = &[
    // Parameters alone are given.
    (
        "stop = \"0\"\n[parameter]\nn = 1\n",
        "line 0: 26 UnknownParameter m",
    ),
    (
        "stop = \"0\"\nfederate = [{ name = \"f\" }]\n",
        "line 0: 26 UnknownParameter m",
    ),
];

/// What comes out of these is no federation file.
const NO_FEDERATIONS: &[(&str, &str)] = &[
    ("stop = \"{1} s\"\n", "line 0: 10 NoFederate"),
    (
        "stop = \"0\"\n[[federate]]\nname = \"f\"\ncount = 2\n",
        "line 0: 17 RepeatedName f",
    ),
    ("[[federate]]\nname = \"f\"\n", "line 0: 31 WrongShape stop"),
    (
        "stop = \"0\"\n[[federate]]\nname = \"f\"\ncount = 1\n[[connection]]\nfrom = \"f.y\"\nto = \"f.x\"\n",
        "line 0: 11 UnknownName f.y",
    ),
    // States in tables have no list to which scratch states could be added.
    (
        "stop = \"0\"\n[[federate]]\nname = \"f\"\n[[federate.state]]\nname = \"n\"\nvalue = 1\n[[federate.reaction]]\n\
         triggers = [\"startup\"]\nbody = [\"n = n * n + 1\"]\n",
        "line 4: 31 WrongShape state",
    ),
    (
        "stop = \"0\"\n[[federate]]\nname = \"f\"\n[[federate . state]]\nname = \"n\"\nvalue = 1\n\
         [[federate.reaction]]\ntriggers = [\"startup\"]\nbody = [\"n = n * n + 1\"]\n",
        "line 4: 31 WrongShape state",
    ),
];

/// Two federates of one name, with states and a body that are expanded.
const REPEATED: &str = r#"stop = "0"
[[federate]]
name = "f"
outputs = ["y"]
state = [
  { name = "n", value = 0 },
]
[[federate.reaction]]
triggers = ["startup"]
body = ["out.y = n + 1"]
[[federate]]
name = "f"
"#;

/// Of which line of that each line of what it becomes came.
const REPEATED_LINES: &[usize] = &[1, 2, 3, 4, 5, 6, 6, 7, 8, 9, 10, 10, 10, 10, 11, 12, 13];

fn is_refused(alloc: Global, body: &str, wanted: &str) -> Option<bool> {
    let source = joined(alloc, &[BEFORE, body, "]\n"])?;
    Some(is_answered(alloc, source.as_str(), &[], wanted))
}

#[test]
fn a_mistake_in_a_body_has_its_line(rt: HostRuntime) {
    for (body, wanted) in BODIES {
        assert_eq!(rt; is_refused(rt.alloc(), body, wanted), Some(true));
    }
}

#[test]
fn only_parameters_that_are_there_are_given(rt: HostRuntime) {
    for (source, wanted) in SOURCES {
        assert!(rt; is_answered(rt.alloc(), source, &[("m", 2)], wanted));
    }
}

#[test]
fn what_is_no_federation_file_is_refused(rt: HostRuntime) {
    for (source, wanted) in NO_FEDERATIONS {
        assert!(rt; is_answered(rt.alloc(), source, &[], wanted));
    }
}

#[test]
fn lines_of_what_is_no_federation_file_are_traced_to_the_source(rt: HostRuntime) {
    assert!(rt; has_lines(rt.alloc(), REPEATED, REPEATED_LINES));
}
