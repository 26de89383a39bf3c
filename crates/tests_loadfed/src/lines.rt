//! Body lines, and what they are read as.
use crate::federations::loaded;
use crate::files::ONE_REACTION;
use reactor::Program;
use reactor_program::{Expression, Line, Operand, Operator, Statement};
use std::alloc::Global;
use std::test::Fail;
use tag::{Delay, Time};

fn is_only_line(programs: &[Program], wanted: Line) -> bool {
    match programs {
        [program] => match program.reactions() {
            [reaction] => reaction.body.as_slice() == [wanted].as_slice(),
            _ => false,
        },
        _ => false,
    }
}

fn is_read_as(alloc: Global, body: &str, wanted: Line) -> bool {
    match loaded(alloc, ONE_REACTION, body) {
        Ok((_plan, programs)) => is_only_line(programs.as_slice(), wanted),
        Err(_) => false,
    }
}

// `n = ..`
fn assigned(expression: Expression) -> Line {
    Line {
        condition: None,
        statement: Statement::Assign(0, expression),
    }
}

/// Of the form `n = n OP m`.
const COMBINED: &[(&str, Operator)] = &[
    ("body = [\"n = n - m\"]", Operator::Minus),
    ("body = [\"n = n * m\"]", Operator::Times),
    ("body = [\" n  = n min  m \"]", Operator::Minimum),
    ("body = [\"n = n max m\"]", Operator::Maximum),
    ("body = [\"n = n < m\"]", Operator::Less),
    ("body = [\"n = n == m\"]", Operator::Equal),
];

/// Of the form `n = A`.
const SINGLE: &[(&str, Operand)] = &[
    ("body = [\"n = in.act\"]", Operand::Value(2)),
    ("body = [\"n = has.p\"]", Operand::Presence(3)),
    ("body = [\"n = 007\"]", Operand::Number(7)),
];

#[test]
fn reads_assignments(rt: HostRuntime) {
    for (body, operator) in COMBINED {
        let expression = Expression::Binary(Operand::State(0), *operator, Operand::State(1));
        assert!(rt;
            is_read_as(rt.alloc(), body, assigned(expression)),
            "{body}"
        );
    }
    for (body, operand) in SINGLE {
        let expression = Expression::Single(*operand);
        assert!(rt;
            is_read_as(rt.alloc(), body, assigned(expression)),
            "{body}"
        );
    }
}

#[test]
fn reads_a_condition(rt: HostRuntime) {
    let wanted = Line {
        condition: Some(Operand::State(0)),
        statement: Statement::Output(0, Operand::Number(1)),
    };
    assert!(rt; is_read_as(rt.alloc(), "body = [\"when n:out.y = 1\"]", wanted));
}

/// With the time in ns and the value.
const SCHEDULED: &[(&str, u64, i64)] = &[
    ("body = [\"schedule act 0 1\"]", 0, 1),
    ("body = [\"schedule act 10ms -1\"]", 10_000_000, -1),
    ("body = [\"schedule  act 5   ms 7\"]", 5_000_000, 7),
];

fn is_scheduled(alloc: Global, body: &str, nanoseconds: u64, value: i64) -> bool {
    match Time::new(nanoseconds) {
        Some(time) => {
            let wanted = Line {
                condition: None,
                statement: Statement::Schedule(2, Delay::after(time), Operand::Number(value)),
            };
            is_read_as(alloc, body, wanted)
        }
        None => false,
    }
}

#[test]
fn reads_schedulings(rt: HostRuntime) {
    for (body, nanoseconds, value) in SCHEDULED {
        assert!(rt;
            is_scheduled(rt.alloc(), body, *nanoseconds, *value),
            "{body}"
        );
    }
}
