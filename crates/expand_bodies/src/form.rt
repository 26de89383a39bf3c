//! Which form a line has.
ghost use Rattle.std.specs.Prelude.{◌≡◌, ◌≤◌, [], length, not, IfOk, IfSome, IsTrue};
ghost use Rattle.std.specs.List.{prefix_len};
ghost use Rattle.reactor_program.specs.Tokens.{is_colon};
ghost use Rattle.expand_expressions.specs.Words.{IsBehindSpaces};
ghost use Rattle.expand_bodies.specs.Forms.{keyword_text, IsWordBefore, IsAssignment, IsAssigned, IsScheduled};
ghost use Rattle.expand_bodies.specs.Forms.{IsBinding, IsGuarded, IsForm};

use crate::fault::BodyFaultKind;
use expand_expressions::words::{after, after_spaces, front_word};

/// A line, whose expressions aren't read yet.
#[derive(Clone, Copy)]
pub(crate) enum Form<'a> {
    /// `let NAME = EXPRESSION`
    Let { name: &'a [u8], value: &'a [u8] },
    /// `if EXPRESSION`
    If(&'a [u8]),
    /// `elif EXPRESSION`
    Elif(&'a [u8]),
    Else,
    End,
    /// `when EXPRESSION : STATEMENT`
    When { condition: &'a [u8], deed: Deed<'a> },
    Plain(Deed<'a>),
}

/// A statement, whose expression isn't read yet.
#[derive(Clone, Copy)]
pub(crate) enum Deed<'a> {
    /// `STATE = EXPRESSION`
    Assign { state: &'a [u8], value: &'a [u8] },
    /// `out.PORT = EXPRESSION`
    Output { port: &'a [u8], value: &'a [u8] },
    /// `schedule ACTION DURATION EXPRESSION`, with all that stands behind the action
    Schedule { action: &'a [u8], rest: &'a [u8] },
}

/// A word that a line begins with.
#[derive(Clone, Copy)]
enum Keyword {
    Let,
    If,
    Elif,
    Else,
    End,
    When,
    Schedule,
}

/// The form of a line. A word in front of `=` is a state's name, whatever it means elsewhere.
pub(crate) fn form_of(text: &[u8]) -> Result<Form<'_>, BodyFaultKind>
    ensures { IfOk result (λ form. IsForm text.now form) }
{
    if let Some((target, value)) = parts_of_assignment(text) {
        return Ok(Form::Plain(assignment(target, value)));
    }
    let (word, rest) = next_word(text);
    match keyword_of(word) {
        Some(Keyword::Let) => binding(rest),
        Some(Keyword::If) => Ok(Form::If(rest)),
        Some(Keyword::Elif) => Ok(Form::Elif(rest)),
        Some(Keyword::Else) => alone(rest, Form::Else),
        Some(Keyword::End) => alone(rest, Form::End),
        Some(Keyword::When) => {
            let (condition, deed) = guarded(rest)?;
            Ok(Form::When { condition, deed })
        }
        Some(Keyword::Schedule) => Ok(Form::Plain(schedule(rest))),
        None => Err(BodyFaultKind::NoForm),
    }
}

fn keyword_of(word: &[u8]) -> Option<Keyword>
    ensures { IfSome result (λ keyword. word.now ≡ keyword_text keyword) }
{
    match word {
        b"let" => Some(Keyword::Let),
        b"if" => Some(Keyword::If),
        b"elif" => Some(Keyword::Elif),
        b"else" => Some(Keyword::Else),
        b"end" => Some(Keyword::End),
        b"when" => Some(Keyword::When),
        b"schedule" => Some(Keyword::Schedule),
        _ => None,
    }
}

// What stands behind `let`.
fn binding(text: &[u8]) -> Result<Form<'_>, BodyFaultKind>
    ensures { IfOk result (IsBinding text.now) }
{
    match parts_of_assignment(text) {
        Some((name, value)) => Ok(Form::Let { name, value }),
        None => Err(BodyFaultKind::NoForm),
    }
}

// The form of a line whose word stands alone.
fn alone<'a>(text: &[u8], form: Form<'a>) -> Result<Form<'a>, BodyFaultKind>
    ensures { IfOk result (λ given. (given ≡ form.entry) × IsBehindSpaces text.now []) }
{
    if is_blank(text) {
        Ok(form)
    } else {
        Err(BodyFaultKind::NoForm)
    }
}

fn assignment<'a>(target: &'a [u8], value: &'a [u8]) -> Deed<'a>
    ensures { IsAssigned target.now value.now result }
{
    match after(b"out.", target) {
        Some(port) => Deed::Output { port, value },
        None => Deed::Assign {
            state: target,
            value,
        },
    }
}

fn schedule(text: &[u8]) -> Deed<'_>
    ensures { IsScheduled text.now result }
{
    let (action, rest) = next_word(text);
    Deed::Schedule { action, rest }
}

// What stands behind `when`.
fn guarded(text: &[u8]) -> Result<(&[u8], Deed<'_>), BodyFaultKind>
    ensures { IfOk result (λ parts. IsGuarded text.now parts.0.now parts.1) }
{
    let (condition, rest) = text.split_at(before_colon_len(text));
    let [b':', statement @ ..] = rest else {
        return Err(BodyFaultKind::NoForm);
    };
    if let Some((target, value)) = parts_of_assignment(statement) {
        return Ok((condition, assignment(target, value)));
    }
    let (word, rest) = next_word(statement);
    match keyword_of(word) {
        Some(Keyword::Schedule) => Ok((condition, schedule(rest))),
        _ => Err(BodyFaultKind::NoForm),
    }
}

// A word, `=`, and what follows it.
fn parts_of_assignment(text: &[u8]) -> Option<(&[u8], &[u8])>
    ensures { IfSome result (λ parts. IsAssignment text.now parts.0.now parts.1.now) }
{
    let (word, rest) = next_word(text);
    match after_spaces(rest) {
        [b'=', b'=', ..] => None,
        [b'=', value @ ..] if !word.is_empty() => Some((word, value)),
        _ => None,
    }
}

/// The word that stands in front, and what follows it.
pub(crate) fn next_word(text: &[u8]) -> (&[u8], &[u8])
    ensures parts { IsWordBefore text.now result.0.now result.1.now }
    ensures within { length result.1.now ≤ length text.now }
{
    front_word(after_spaces(text))
}

pub(crate) fn is_blank(text: &[u8]) -> bool
    ensures { IsTrue result → IsBehindSpaces text.now [] }
{
    after_spaces(text).is_empty()
}

fn before_colon_len(text: &[u8]) -> usize
    ensures value { result ≡ prefix_len (λ c. not (is_colon c)) text.now }
    ensures within { result ≤ length text.now }
{
    text.iter().take_while(|c| **c != b':').count()
}
