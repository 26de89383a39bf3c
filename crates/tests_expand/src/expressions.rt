//! Expressions: what they are read as, and the lines that compute them.
use expand_expressions::{
    Combination, ExpressionFault, Formula, Known, NamedOperand, read_formula, work_out,
};
use plan_names::{Names, Text};
use reactor_program::{Expression, Line, Operand, Operator, Statement};
use std::alloc::{AllocError, Global};

/// States `a`, `b` and `n`, an input `x`, and a constant `LIMIT` of 10.
#[derive(Drop)]
struct Given {
    operands: Vec<NamedOperand>,
    readable: Names,
}

fn text(alloc: Global, name: &str) -> Result<Text, AllocError> {
    Ok(Text::new(String::from_str(alloc, name)?))
}

fn named(alloc: Global, name: &str, operand: Operand) -> Result<NamedOperand, AllocError> {
    let name = text(alloc, name)?;
    Ok(NamedOperand { name, operand })
}

fn given_names(alloc: Global) -> Result<Given, AllocError> {
    let mut operands = Vec::new(alloc);
    operands.push(named(alloc, "a", Operand::State(0))?)?;
    operands.push(named(alloc, "b", Operand::State(1))?)?;
    operands.push(named(alloc, "n", Operand::State(2))?)?;
    operands.push(named(alloc, "LIMIT", Operand::Number(10))?)?;
    let mut readable = Vec::new(alloc);
    readable.push(text(alloc, "x")?)?;
    Ok(Given {
        operands,
        readable: Names::new(readable),
    })
}

fn read(alloc: Global, text: &str) -> Result<Formula, ExpressionFault> {
    let given = given_names(alloc)?;
    let known = Known {
        operands: given.operands.as_slice(),
        readable: &given.readable,
    };
    read_formula(alloc, known, text.as_bytes())
}

fn sign(combination: Combination) -> &'static str {
    match combination {
        Combination::Sum => " + ",
        Combination::Difference => " - ",
        Combination::Product => " * ",
        Combination::Least => " min ",
        Combination::Greatest => " max ",
        Combination::IsLess => " < ",
        Combination::IsAtMost => " <= ",
        Combination::IsGreater => " > ",
        Combination::IsAtLeast => " >= ",
        Combination::IsEqual => " == ",
        Combination::IsDifferent => " != ",
        Combination::Both => " and ",
        Combination::Either => " or ",
    }
}

fn print_operand(alloc: Global, out: &mut String, operand: Operand) -> Result<(), AllocError> {
    let shown = match operand {
        Operand::Number(number) => format!(in alloc; "{number}")?,
        Operand::State(state) => format!(in alloc; "s{state}")?,
        Operand::Value(slot) => format!(in alloc; "in{slot}")?,
        Operand::Presence(slot) => format!(in alloc; "has{slot}")?,
    };
    out.push_str(shown.as_str())
}

// A formula with all its parentheses.
fn print(alloc: Global, out: &mut String, formula: &Formula) -> Result<(), AllocError> {
    match formula {
        Formula::Leaf(operand) => print_operand(alloc, out, *operand),
        Formula::Negative(inner) => {
            out.push_str("(- ")?;
            print(alloc, out, inner)?;
            out.push_str(")")
        }
        Formula::Not(inner) => {
            out.push_str("(not ")?;
            print(alloc, out, inner)?;
            out.push_str(")")
        }
        Formula::Combined(left, combination, right) => {
            out.push_str("(")?;
            print(alloc, out, left)?;
            out.push_str(sign(*combination))?;
            print(alloc, out, right)?;
            out.push_str(")")
        }
        Formula::Quotient(inner, divisor) => {
            out.push_str("(")?;
            print(alloc, out, inner)?;
            out.push_str(" / ")?;
            print_operand(alloc, out, Operand::Number(*divisor))?;
            out.push_str(")")
        }
        Formula::Remainder(inner, divisor) => {
            out.push_str("(")?;
            print(alloc, out, inner)?;
            out.push_str(" % ")?;
            print_operand(alloc, out, Operand::Number(*divisor))?;
            out.push_str(")")
        }
    }
}

fn shown(alloc: Global, text: &str) -> Result<String, ExpressionFault> {
    let formula = read(alloc, text)?;
    let mut out = String::new(alloc);
    print(alloc, &mut out, &formula)?;
    Ok(out)
}

fn is_read_as(alloc: Global, text: &str, wanted: &str) -> bool {
    match shown(alloc, text) {
        Ok(shown) => shown.as_str() == wanted,
        Err(_) => false,
    }
}

fn is_refused(alloc: Global, text: &str, wanted: ExpressionFault) -> bool {
    match read(alloc, text) {
        Ok(_formula) => false,
        Err(fault) => fault == wanted,
    }
}

/// Expressions, and the same with all their parentheses.
const READINGS: &[(&str, &str)] = &[
    ("007", "7"),
    (" a ", "s0"),
    ("LIMIT", "10"),
    ("in.x+has.x", "(in0 + has0)"),
    ("a - b - 1", "((s0 - s1) - 1)"),
    ("a - (b - 1)", "(s0 - (s1 - 1))"),
    ("a + b * 2", "(s0 + (s1 * 2))"),
    ("(a + b) * 2", "((s0 + s1) * 2)"),
    ("a * b / 3 % 5", "(((s0 * s1) / 3) % 5)"),
    ("-a * b", "((- s0) * s1)"),
    ("a - -b", "(s0 - (- s1))"),
    ("- -3", "(- -3)"),
    ("-9223372036854775808", "-9223372036854775808"),
    ("a + 1 < b * 2", "((s0 + 1) < (s1 * 2))"),
    ("not a == b", "(not (s0 == s1))"),
    ("not not a", "(not (not s0))"),
    ("a < b and not n", "((s0 < s1) and (not s2))"),
    ("not a < b and n", "((not (s0 < s1)) and s2)"),
    ("a or b and n", "(s0 or (s1 and s2))"),
    ("a and b or n", "((s0 and s1) or s2)"),
    ("not a or b", "((not s0) or s1)"),
    ("(a < b) == (b < n)", "((s0 < s1) == (s1 < s2))"),
    ("max(a, min(b, 3) - 1)", "(s0 max ((s1 min 3) - 1))"),
    ("a / (2 - 5 * LIMIT)", "(s0 / -48)"),
    ("a >= b", "(s0 >= s1)"),
    ("a<=b", "(s0 <= s1)"),
    ("a > b", "(s0 > s1)"),
    ("a != b", "(s0 != s1)"),
];

const REFUSED: &[(&str, ExpressionFault)] = &[
    ("", ExpressionFault::NoForm),
    ("a +", ExpressionFault::NoForm),
    ("a b", ExpressionFault::NoForm),
    ("(a", ExpressionFault::NoForm),
    ("a)", ExpressionFault::NoForm),
    ("min(a)", ExpressionFault::NoForm),
    ("a min b", ExpressionFault::NoForm),
    ("a = b", ExpressionFault::NoForm),
    ("1a", ExpressionFault::NoForm),
    ("a < b < 3", ExpressionFault::NoForm),
    ("not a < b < 3", ExpressionFault::NoForm),
    ("n and not a < b == 3", ExpressionFault::NoForm),
    ("a < not b", ExpressionFault::NoForm),
    ("-not a", ExpressionFault::NoForm),
    ("a and or b", ExpressionFault::NoForm),
    ("m + 1", ExpressionFault::UnknownName),
    ("in.y", ExpressionFault::UnknownName),
    ("9223372036854775808", ExpressionFault::BeyondNumber),
    ("-9223372036854775809", ExpressionFault::BeyondNumber),
    ("18446744073709551616", ExpressionFault::BeyondNumber),
    ("a / b", ExpressionFault::NotConstant),
    ("7 % in.x", ExpressionFault::NotConstant),
];

#[test]
fn reads_expressions(rt: HostRuntime) {
    for (text, wanted) in READINGS {
        assert!(rt; is_read_as(rt.alloc(), text, wanted), "{text}");
    }
}

#[test]
fn refuses_what_is_no_expression(rt: HostRuntime) {
    for (text, wanted) in REFUSED {
        assert!(rt; is_refused(rt.alloc(), text, *wanted), "{text}");
    }
}

// `1 + 1 + ..`, with so many operators.
fn long(alloc: Global, operators: usize) -> Result<String, AllocError> {
    let mut text = String::from_str(alloc, "1")?;
    for _ in 0..operators {
        text.push_str(" + 1")?;
    }
    Ok(text)
}

// Whether a sum with so many operators is refused as too long.
fn is_too_long(alloc: Global, operators: usize) -> bool {
    match long(alloc, operators) {
        Ok(text) => is_refused(alloc, text.as_str(), ExpressionFault::TooLong),
        Err(_) => false,
    }
}

#[test]
fn refuses_more_than_512_tokens(rt: HostRuntime) {
    assert!(rt; !is_too_long(rt.alloc(), 255));
    assert!(rt; is_too_long(rt.alloc(), 256));
}

// Whether an expression becomes this one line before its last operator, with scratch states from 3 on.
fn becomes(
    alloc: Global,
    text: &str,
    line: Line,
    last: Expression,
) -> Result<bool, ExpressionFault> {
    let formula = read(alloc, text)?;
    let mut lines = Vec::new(alloc);
    let worked = work_out(&mut lines, &formula, 3)?;
    Ok(worked == last && lines.as_slice() == [line].as_slice())
}

#[test]
fn works_out_the_inner_operator_first(rt: HostRuntime) {
    let product = Expression::Binary(Operand::State(0), Operator::Times, Operand::State(1));
    let line = Line {
        condition: None,
        statement: Statement::Assign(3, product),
    };
    let last = Expression::Binary(Operand::State(3), Operator::Plus, Operand::Number(1));
    let answer = becomes(rt.alloc(), "a * b + 1", line, last);
    assert_eq!(rt; answer, Ok(true));
}
