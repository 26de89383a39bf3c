//! Sources that are refused, each with its line.
use crate::answers::is_answered;
use std::test::Fail;

const REFUSED: &[(&str, &str)] = &[
    ("a = 1\nb = \n", "line 2: 30 NotToml"),
    ("a = \"{1\"\n", "line 1: 24 BadBrace"),
    ("a = 1\nb = [\n  \"1}\",\n]\n", "line 3: 24 BadBrace"),
    ("a = 1\nb = \"{{1}}\"\n", "line 2: 24 BadBrace"),
    (
        "a = 1\n\nb = \"{n}\"\n",
        "line 3: 25 BadExpression: unknown name",
    ),
    ("a = \"{in.x}\"\n", "line 1: 25 BadExpression: unknown name"),
    ("a = \"{1 +}\"\n", "line 1: 25 BadExpression: no expression"),
    ("a = \"{}\"\n", "line 1: 25 BadExpression: no expression"),
    (
        "a = \"{9223372036854775808}\"\n",
        "line 1: 25 BadExpression: a number beyond 64 bits",
    ),
    ("[parameter]\na = 1\nb = \"1\"\n", "line 3: 31 WrongShape b"),
    ("a = 1\n[parameter]\n1a = 1\n", "line 3: 31 WrongShape 1a"),
    ("[[class]]\ninputs = []\n", "line 1: 31 WrongShape name"),
    (
        "[[class]]\nname = \"c\"\nparameter = { n = true }\n",
        "line 3: 31 WrongShape n",
    ),
    ("parameter = { n = \"x\" }\n", "line 1: 31 WrongShape n"),
    (
        "[[class]]\nname = \"c\"\nb = 1\n[class.parameter]\nb = \"x\"\n",
        "line 5: 31 WrongShape b",
    ),
    (
        "[[class]]\nname = \"c\"\n[[federate]]\nname = \"f\"\nclass = \"c\"\n[federate.with]\nm = 1\n",
        "line 7: 26 UnknownParameter m",
    ),
    // With spaces around the dot.
    (
        "[[class]]\nname = \"c\"\nb = 1\n[class. parameter]\nb = \"x\"\n",
        "line 5: 31 WrongShape b",
    ),
    (
        "[[class]]\nname = \"c\"\n[[federate]]\nname = \"f\"\nclass = \"c\"\n[ federate .with ]\nm = 1\n",
        "line 7: 26 UnknownParameter m",
    ),
    // On the first line, behind the mark of a byte order.
    (
        "\u{feff}parameter = { n = \"x\" }\n",
        "line 1: 31 WrongShape n",
    ),
    (
        "[[federate]]\nname = \"f\"\nclass = \"c\\n\"\n",
        "line 3: 31 WrongShape class",
    ),
    // A table of the last copy, and not of all.
    (
        "[[federate]]\nname = \"f{i}\"\ncount = 2\n[parameter]\nk = 3\n[[federate.reaction]]\n",
        "line 6: 31 WrongShape federate",
    ),
    (
        "[[class]]\nname = \"c\"\n[[class]]\nname = \"c\"\n",
        "line 4: 28 RepeatedClass c",
    ),
    (
        "[[federate]]\nname = \"f\"\nclass = \"d\"\n",
        "line 3: 27 UnknownClass d",
    ),
    (
        "[[class]]\nname = \"c\"\n[[federate]]\nname = \"f\"\nclass = \"c\"\nwith = { n = 1 }\n",
        "line 6: 26 UnknownParameter n",
    ),
    // A parameter of another class isn't one of this.
    (
        "[[class]]\nname = \"c\"\nparameter = { n = 1 }\n[[class]]\nname = \"d\"\nx = \"{n}\"\n\
         [[federate]]\nname = \"f\"\nclass = \"d\"\n",
        "line 6: 25 BadExpression: unknown name",
    ),
    (
        "[[class]]\nname = \"c\"\n[[federate]]\nname = \"f\"\nclass = \"c\"\nstate = []\n",
        "line 6: 31 WrongShape state",
    ),
    (
        "[[federate]]\nname = \"f\"\ncount = -1\n",
        "line 3: 31 WrongShape count",
    ),
    (
        "[[federate]]\nname = \"f{i}\"\ncount = 65\n",
        "line 3: 14 OverLimit",
    ),
    (
        "[[connection]]\nfrom = \"a.y\"\nfor = \"i in 3\"\n",
        "line 3: 29 BadRange",
    ),
    (
        "[[connection]]\nfrom = \"a.y\"\nfor = \"0..3\"\n",
        "line 3: 29 BadRange",
    ),
    (
        "[[connection]]\nfrom = \"a.y\"\nfor = \"i in 0..{3}\"\n",
        "line 3: 25 BadExpression: no braces stand here",
    ),
    (
        "[[connection]]\nfrom = \"a.y\"\nfor = \"i in 0..1024\"\n",
        "line 3: 14 OverLimit",
    ),
    // In a copy of a class, at the line of the class.
    (
        "[[class]]\nname = \"c\"\noutputs = [\"y{\"]\n[[federate]]\nname = \"f\"\nclass = \"c\"\n",
        "line 3: 24 BadBrace",
    ),
    ("[parameter]\nn = 1.5\n", "line 2: 31 WrongShape n"),
    ("[[class]]\nname = \"1c\"\n", "line 2: 31 WrongShape name"),
    (
        "[[federate]]\nname = \"f\"\nclass = 3\n",
        "line 3: 31 WrongShape class",
    ),
    (
        "[[class]]\nname = \"c\"\n[[federate]]\nclass = \"c\"\n",
        "line 4: 31 WrongShape name",
    ),
    (
        "[[class]]\nname = \"c\"\nparameter = { n = 1 }\n[[federate]]\nname = \"f\"\nclass = \"c\"\n\
         with = { n = true }\n",
        "line 7: 31 WrongShape n",
    ),
    (
        "[[class]]\nname = \"c\"\nparameter = { n = 1 }\n[[federate]]\nname = \"f\"\nclass = \"c\"\n\
         with = { n = \"{2}\" }\n",
        "line 7: 25 BadExpression: no braces stand here",
    ),
    (
        "[[class]]\nname = \"c\"\nparameter = { n = 1 }\n[[federate]]\nname = \"f\"\nclass = \"c\"\n\
         with = { n = \"m\" }\n",
        "line 7: 25 BadExpression: unknown name",
    ),
    (
        "[[class]]\nname = \"c\"\n[[federate]]\nname = \"f\"\nclass = \"c\"\nwith = 3\n",
        "line 6: 31 WrongShape with",
    ),
    (
        "[[federate]]\nname = \"f\"\nwith = { n = 1 }\n",
        "line 3: 31 WrongShape with",
    ),
    (
        "[[federate]]\nname = \"f\"\ncount = 1.5\n",
        "line 3: 31 WrongShape count",
    ),
    (
        "[[federate]]\nname = \"f{i}\"\ncount = \"i\"\n",
        "line 3: 25 BadExpression: unknown name",
    ),
    (
        "[[federate]]\nname = \"f{i}\"\ncount = 64\n[[federate]]\nname = \"g\"\n",
        "line 4: 14 OverLimit",
    ),
    (
        "[[connection]]\nfrom = \"a.y\"\nfor = 3\n",
        "line 3: 31 WrongShape for",
    ),
    (
        "[[connection]]\nfrom = \"a.y\"\nfor = \"1i in 0..3\"\n",
        "line 3: 29 BadRange",
    ),
    (
        "[[connection]]\nfrom = \"a.y\"\nfor = \"i in 0..n\"\n",
        "line 3: 25 BadExpression: unknown name",
    ),
    (
        "[[connection]]\nfrom = \"a.y\"\nfor = \"i in 0..1023\"\n[[connection]]\nfrom = \"b.y\"\n",
        "line 4: 14 OverLimit",
    ),
    // A copy's number is known in its own copies alone.
    (
        "[[federate]]\nname = \"f{i}\"\ncount = 2\n[[connection]]\nfrom = \"f{i}.y\"\n",
        "line 5: 25 BadExpression: unknown name",
    ),
];

#[test]
fn what_is_wrong_is_answered_with_its_line(rt: HostRuntime) {
    for (source, wanted) in REFUSED {
        assert!(rt; is_answered(rt.alloc(), source, &[], wanted));
    }
}

#[test]
fn only_parameters_that_are_there_are_given(rt: HostRuntime) {
    let source = "[parameter]\nn = 1\n[a]\nb = \"{n}\"";
    assert!(rt; is_answered(rt.alloc(), source, &[("n", 2)], "[a]\nb = 2"));
    assert!(rt;
        is_answered(
            rt.alloc(),
            source,
            &[("m", 2)],
            "line 0: 26 UnknownParameter m"
        )
    );
}
