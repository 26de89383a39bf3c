//! Federation files, which are their own expansions.
use crate::answers::is_answered;
use std::test::Fail;

const FILES: &[&str] = &[
    // As a script wrote it.
    r#"stop = "7 ns"
[[federate]]
name = "Node0"
outputs = ["y0", "y1", "y2"]
timers = [{ name = "t0", offset = "1 ns", period = "2 ns" }, { name = "t1", offset = "1 ns", period = "0 ns" }]
state = [{ name = "n0", value = 40 }, { name = "n1", value = 1 }]
[[federate.reaction]]
triggers = ["t0"]
body = ["n0 = -8 + 4", "out.y1 = n0", "out.y1 = -2", "n0 = n0"]
[[federate.reaction]]
triggers = ["t1"]
body = ["out.y0 = -1"]
[[federate]]
name = "Node1"
inputs = ["x0"]
physical = ["p0"]
[[federate.reaction]]
triggers = ["x0", "p0"]
effects = []
body = []
[[connection]]
from = "Node0.y0"
to = "Node1.x0"
after = "0"
"#,
    // With what TOML allows elsewhere: comments, spaces, both kinds of quotes, tables in an array, no last end of a line.
    "# It's \"one\" comment { [ \n\n\tstop = '1 s' # and } another\n\n  [[ federate ]]\n  \"name\" = 'a'\n\
     outputs = [ # on\n    'y',\n\n    # several lines\n  ]\n[[federate.reaction]]\ntriggers = ['startup']\n\
     body = ['''out.y = 1''', \"\"\"out.y = 2\"\"\"]\n\n\n[federate.other]\n",
    "stop = \"1 s\"\r\nconnection = [{ from = \"a.y\", to = \"b.x\" }, { from = 'a.z', to = 'b.w' }]\r\nfederate = []",
    // A reaction that stands apart from its federate.
    "[[federate]]\nname = \"a\"\n[[connection]]\nfrom = \"a.y\"\nto = \"a.x\"\n[[federate.reaction]]\nbody = []\n",
    // A table that no federation file has.
    "count = 3\nclass = \"c\"\n[other]\nfor = \"i in 0..3\"\nwith = { n = 1 }\n[[federates]]\ncount = 2\n",
    // With the mark of a byte order.
    "\u{feff}[[federate]]\r\nname = 'a'\r\n",
    "\u{feff}stop = '1 s'",
    "\u{feff}",
    "",
    "\n",
    "# nothing but a comment",
];

#[test]
fn a_federation_file_is_its_own_expansion(rt: HostRuntime) {
    for file in FILES {
        assert!(rt; is_answered(rt.alloc(), file, &[], file));
    }
}
