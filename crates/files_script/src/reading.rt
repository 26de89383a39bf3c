//! What a line of a schedule says.
ghost use Rattle.std.specs.Prelude.{◌≡◌, ◌<◌, ◌^◌, IfSome};
ghost use Rattle.std.specs.Char.{is_ascii_digit};
ghost use Rattle.std.specs.List.{list_all};
ghost use Rattle.plan.specs.declared.draft.Draft.{Draft};
ghost use Rattle.plan.specs.Federation.{federate_count, federate_number};
ghost use Rattle.files_script.specs.Scripts.{is_idle, IsCommandOf, IsDirOf};
ghost use Rattle.files_script.specs.Words as forms;

use crate::command::Command;
use crate::words::{Words, words_of};
use plan::Plan;
use plan_names::place_of;
use tag_text::digits_value;
use world_stations::{Dir, Step};

/// Whether a line does nothing: it is empty, or a comment, which may have any bytes.
pub fn is_idle(line: &[u8]) -> bool
    ensures { result ≡ is_idle line.now }
{
    match line {
        [] | [b'#', ..] => true,
        _ => false,
    }
}

/// What any other line asks for, or None where it has no form that there is, or names no federate.
#[tactic(auto, using(crate::proofs::Forms::too_many))]
pub fn read_command(plan: &Plan, line: &[u8]) -> Option<Command>
    ensures value { result ≡ forms.command_of plan.now (forms.words_of line.now) }
    ensures of_plan { IfSome result (IsCommandOf plan.now) }
{
    match words_of(line)? {
        Words::One(form) => alone(form),
        Words::Two(form, name) => of_federate(form, federate(plan, name)?),
        Words::Three(form, way, name) => of_direction(form, direction(plan, way, name)?),
        Words::Four(form, way, name, number) => {
            let direction = direction(plan, way, name)?;
            of_frame(form, direction, frame_number(number)?)
        }
    }
}

// A line of one word.
fn alone(form: &[u8]) -> Option<Command>
    ensures value { result ≡ forms.alone form.now }
    ensures about { (d : Draft) → IfSome result (IsCommandOf d) }
{
    if form == b"round".as_slice() {
        Some(Command::Round)
    } else {
        None
    }
}

// A line of a word and a federate.
fn of_federate(form: &[u8], federate: usize) -> Option<Command>
    ensures value { result ≡ forms.of_federate form.now federate }
    ensures about { (d : Draft) → federate < federate_count d → IfSome result (IsCommandOf d) }
{
    if form == b"announce".as_slice() {
        Some(Command::Make(Step::Announce(federate)))
    } else if form == b"advance".as_slice() {
        Some(Command::Make(Step::Advance(federate)))
    } else if form == b"forget".as_slice() {
        Some(Command::Make(Step::Forget(federate)))
    } else {
        None
    }
}

// A line of a word and a direction.
fn of_direction(form: &[u8], direction: Dir) -> Option<Command>
    ensures value { result ≡ forms.of_direction form.now direction }
    ensures about { (d : Draft) → IsDirOf d direction → IfSome result (IsCommandOf d) }
{
    if form == b"resend".as_slice() {
        Some(Command::Make(Step::Resend(direction)))
    } else if form == b"reconnect".as_slice() {
        Some(Command::Make(Step::Reconnect(direction)))
    } else if form == b"skip".as_slice() {
        Some(Command::Skip(direction))
    } else {
        None
    }
}

// A line of a word, a direction and a frame's number.
fn of_frame(form: &[u8], direction: Dir, number: usize) -> Option<Command>
    ensures value { result ≡ forms.of_frame form.now direction number }
    ensures about { (d : Draft) → IsDirOf d direction → 0 < number → number < 2 ^ 32 → IfSome result (IsCommandOf d) }
{
    if form == b"deliver".as_slice() {
        Some(Command::Make(Step::Deliver(direction, number)))
    } else {
        None
    }
}

// The direction that a word and a federate's name say.
fn direction(plan: &Plan, way: &[u8], name: &[u8]) -> Option<Dir>
    ensures value { result ≡ forms.direction_named plan.now way.now name.now }
    ensures there { IfSome result (IsDirOf plan.now) }
{
    let federate = federate(plan, name)?;
    if way == b"up".as_slice() {
        Some(Dir::Up(federate))
    } else if way == b"down".as_slice() {
        Some(Dir::Down(federate))
    } else {
        None
    }
}

// The number of the federate of this name.
fn federate(plan: &Plan, name: &[u8]) -> Option<usize>
    ensures value { result ≡ federate_number plan.now.federates name.now }
    ensures there { IfSome result (λ number. number < federate_count plan.now) }
{
    place_of(plan.federates(), name)
}

// A frame's number: ASCII digits, of which some may be leading zeros.
#[tactic(auto, using(crate::proofs::Forms::digits_listed))]
fn frame_number(word: &[u8]) -> Option<usize>
    ensures value { result ≡ forms.frame_number word.now }
    ensures range { IfSome result (λ number. (0 < number) × (number < 2 ^ 32)) }
{
    if !are_digits(word) {
        return None;
    }
    let number = digits_value(word)?;
    if 0 < number && number < 1 << 32 {
        Some(number as usize)
    } else {
        None
    }
}

fn are_digits(word: &[u8]) -> bool
    ensures { result ≡ list_all is_ascii_digit word.now }
{
    word.iter().all(|byte| byte.is_ascii_digit())
}
