//! What bodies become, and which are refused.
use expand_bodies::{BodyFault, BodyNames, Constant, ExpandedBody, expand_body};
use plan_names::{Names, Text};
use std::alloc::{AllocError, Global};
use std::test::Fail;

fn text(alloc: Global, name: &str) -> Result<Text, AllocError> {
    Ok(Text::new(String::from_str(alloc, name)?))
}

pub(crate) fn texts(alloc: Global, list: &str, separator: char) -> Result<Vec<Text>, AllocError> {
    let mut texts = Vec::new(alloc);
    for part in list.split(separator) {
        texts.push(text(alloc, part)?)?;
    }
    Ok(texts)
}

// A federate with a state `_2` among others, so that this is no scratch state.
fn names(alloc: Global) -> Result<BodyNames, AllocError> {
    let mut constants = Vec::new(alloc);
    constants.push(Constant {
        name: text(alloc, "LIMIT")?,
        value: 10,
    })?;
    Ok(BodyNames {
        states: Names::new(texts(alloc, "a b n _2", ' ')?),
        readable: Names::new(texts(alloc, "x z act", ' ')?),
        outputs: Names::new(texts(alloc, "y", ' ')?),
        actions: Names::new(texts(alloc, "act", ' ')?),
        constants,
    })
}

fn joined(alloc: Global, body: &ExpandedBody) -> Result<String, AllocError> {
    let mut all = String::new(alloc);
    for line in body.lines.as_slice() {
        all.push_str(line.as_str())?;
        all.push_str(";")?;
    }
    Ok(all)
}

// The lines that a body becomes, or why it is refused. Lines are parted by `;`.
fn answer(alloc: Global, body: &str) -> Result<String, AllocError> {
    let names = names(alloc)?;
    let lines = texts(alloc, body, ';')?;
    match expand_body(alloc, &names, lines.as_slice()) {
        Ok(body) => joined(alloc, &body),
        Err(BodyFault { line, kind }) => format!(in alloc; "{line}: {kind}"),
    }
}

fn is_answered(alloc: Global, body: &str, wanted: &str) -> bool {
    match answer(alloc, body) {
        Ok(answer) => answer.as_str() == wanted,
        Err(_) => false,
    }
}

/// Body lines already, which stay as they are.
const BODY_LINES: &[(&str, &str)] = &[
    ("when a:out.y = 1", "when a:out.y = 1;"),
    (" n  = n min  007", " n  = n min  007;"),
    ("schedule act 10 msec -5", "schedule act 10 msec -5;"),
];

/// Expressions, by how tightly their operators bind.
const EXPRESSIONS: &[(&str, &str)] = &[
    ("n=n+LIMIT", "n = n + 10;"),
    ("n = a - b - 1", "_1 = a - b;n = _1 - 1;"),
    ("n = a - (b - 1)", "_1 = b - 1;n = a - _1;"),
    ("n = a + b * 2", "_1 = b * 2;n = a + _1;"),
    (
        "n = (n + 1) * (n - 1)",
        "_1 = n + 1;_3 = n - 1;n = _1 * _3;",
    ),
    (
        "n = -a * -9223372036854775808",
        "_1 = 0 - a;n = _1 * -9223372036854775808;",
    ),
    ("n = not a == b", "_1 = a == b;n = _1 == 0;"),
    ("n = a <= b", "_1 = b < a;n = _1 == 0;"),
    (
        "n = a > b and not has.x",
        "_1 = b < a;_3 = has.x == 0;n = _1 * _3;",
    ),
    (
        "n = a or b < 1",
        "_1 = a == 0;_1 = _1 == 0;_3 = b < 1;n = _1 max _3;",
    ),
    ("n = max(a, min(b, 3))", "_1 = b min 3;n = a max _1;"),
    ("n = a / 3 / 3", "1: more than 256 lines"),
    ("n = a % 0", "_1 = a;n = _1 * 1;"),
    ("n = a / -1", "_1 = a;n = _1 * -1;"),
    (
        "n = a % 6000000000000000000",
        "_1 = a;_3 = 0 - _1;_3 = _3 min _1;_4 = _3 < -5999999999999999999;\
         when _4 : _3 = _3 - -6000000000000000000;_4 = 0 < _1;when _4 : _3 = 0 - _3;n = _3 + 0;",
    ),
];

/// Statements, local names and branches.
const LINES: &[(&str, &str)] = &[
    ("out.y = a + 1", "_1 = a + 1;out.y = _1;"),
    (
        "schedule act 5 msec a + 1",
        "_1 = a + 1;schedule act 5 ms _1;",
    ),
    ("schedule act 0 -a", "_1 = 0 - a;schedule act 0 _1;"),
    (
        "when a > 1 : a = a * a + b",
        "_1 = 1 < a;_3 = a * a;when _1 : a = _3 + b;",
    ),
    ("let s = a + b;n = s * s", "_1 = a + b;n = _1 * _1;"),
    ("let k = 3;n = a + k", "n = a + 3;"),
    (
        "if a < 3;a = a + 1;elif b;a = 0;else;n = in.x;end;b = 1",
        "_1 = a < 3;when _1 : a = a + 1;_1 = 1 - _1;_3 = b == 0;_3 = _3 == 0;_3 = _3 * _1;\
         when _3 : a = 0;_3 = _1 - _3;when _3 : n = in.x;b = 1;",
    ),
    (
        "if has.x;if has.z;n = 1;else;n = 2;end;end",
        "_1 = has.x;_3 = has.z * _1;when _3 : n = 1;_3 = _1 - _3;when _3 : n = 2;",
    ),
];

const REFUSED: &[(&str, &str)] = &[
    ("n = m + 1", "1: unknown name"),
    ("n = 1;n = a < b < 3", "2: no line of a body"),
    ("n = 9223372036854775808 + 1", "1: a number beyond 64 bits"),
    ("n = a / b", "1: divided by what is no constant"),
    ("n = 1;if a;n = 1", "2: no end of this if"),
    ("n = 1;if a;elif b;n = 1;else;n = 2", "2: no end of this if"),
    ("else", "1: no if before it"),
    ("if a;else;else;end", "3: no if before it"),
    ("let n = 1 + a", "1: a name that is there already"),
    ("if a;let s = a + 1;end;n = s", "4: unknown name"),
];

// The first body that isn't answered so.
fn first_wrong<'a>(alloc: Global, answers: &[(&'a str, &str)]) -> Option<&'a str> {
    for (body, wanted) in answers {
        if !is_answered(alloc, body, wanted) {
            return Some(body);
        }
    }
    None
}

#[test]
fn leaves_body_lines(rt: HostRuntime) {
    assert_eq!(rt; first_wrong(rt.alloc(), BODY_LINES), None);
}

#[test]
fn expands_expressions(rt: HostRuntime) {
    assert_eq!(rt; first_wrong(rt.alloc(), EXPRESSIONS), None);
}

#[test]
fn expands_lines(rt: HostRuntime) {
    assert_eq!(rt; first_wrong(rt.alloc(), LINES), None);
}

#[test]
fn refuses_lines(rt: HostRuntime) {
    assert_eq!(rt; first_wrong(rt.alloc(), REFUSED), None);
}
