//! Of which line of a source each line of what it becomes came.
use expand_source::expand;
use std::alloc::Global;
use std::test::Fail;

/// Sources, and for each line of what they become its line in them; the last is of what stands behind the end of the
/// last line.
const LINES: &[(&str, &[usize])] = &[
    ("", &[1]),
    ("a = 1\n\nb = 2", &[1, 2, 3]),
    // Parameters go.
    (
        "a = 1\n[parameter]\nn = 3\n# c\n\n[b]\nd = \"{n}\"\n",
        &[1, 4, 5, 6, 7, 8],
    ),
    // Two copies, each with an empty line behind it.
    (
        "[[federate]]\ncount = 2\nname = \"f{i}\"\n\n# c\n",
        &[1, 3, 3, 1, 3, 3, 4, 5, 6],
    ),
    // A federate of a class: its name, and then the class.
    (
        "[[class]]\nname = \"c\"\ninputs = [\n]\n[[federate]]\nclass = \"c\"\nname = \"f\"\n",
        &[7, 7, 3, 4, 4, 5],
    ),
    // Behind the mark of a byte order.
    ("\u{feff}parameter = { n = 3 }\na = 1\n", &[2, 3]),
    // A text of several lines.
    ("a = \"\"\"\nx\n{1}\"\"\"\n", &[1, 2, 3, 4]),
];

fn has_lines(alloc: Global, source: &str, wanted: &[usize]) -> bool {
    match expand(alloc, source.as_bytes(), &[]) {
        Ok(expansion) => expansion.lines.as_slice() == wanted,
        Err(_) => false,
    }
}

#[test]
fn each_line_is_traced_to_the_source(rt: HostRuntime) {
    for (source, wanted) in LINES {
        assert!(rt; has_lines(rt.alloc(), source, wanted));
    }
}
