//! How inks, marks and anchors are written.
ghost use Rattle.std.specs.Prelude.{◌≡◌};
ghost use Rattle.files_pictures.specs.Svg.{ink_name, ink_colour, sign_class, sign_shape, anchor_name};

use crate::shapes::{Anchor, Ink, Sign};

/// The name of an ink.
#[tactic(auto, unfolding(crate::specs::Svg::ink_name))]
pub(crate) fn ink_name(ink: Ink) -> &'static str
    ensures { result.now ≡ ink_name ink }
{
    match ink {
        Ink::Plain => "plain",
        Ink::Faint => "faint",
        Ink::Net => "net",
        Ink::Ltc => "ltc",
        Ink::Tag => "tag",
        Ink::Msg => "msg",
        Ink::Ack => "ack",
        Ink::Hello => "hello",
        Ink::Refused => "refused",
    }
}

/// The colour of an ink.
#[tactic(auto, unfolding(crate::specs::Svg::ink_colour))]
pub(crate) fn ink_colour(ink: Ink) -> &'static str
    ensures { result.now ≡ ink_colour ink }
{
    match ink {
        Ink::Plain => "#24292f",
        Ink::Faint => "#6e7781",
        Ink::Net => "#0969da",
        Ink::Ltc => "#8250df",
        Ink::Tag => "#1a7f37",
        Ink::Msg => "#bc4c00",
        Ink::Ack => "#8c959f",
        Ink::Hello => "#0e7490",
        Ink::Refused => "#cf222e",
    }
}

/// How a mark is filled.
#[tactic(auto, unfolding(crate::specs::Svg::sign_class))]
pub(crate) fn sign_class(sign: Sign) -> &'static str
    ensures { result.now ≡ sign_class sign }
{
    match sign {
        Sign::Port | Sign::Startup | Sign::Row => "sign solid",
        Sign::Timer | Sign::Action | Sign::Physical | Sign::Reaction | Sign::Cut => "sign",
    }
}

/// The shape of a mark, around its middle. A clock for timers, triangles for actions, one of them with a bar for
/// physical ones, a broad arrow for reactions.
#[tactic(auto, unfolding(crate::specs::Svg::sign_shape))]
pub(crate) fn sign_shape(sign: Sign) -> &'static str
    ensures { result.now ≡ sign_shape sign }
{
    match sign {
        Sign::Port => "M-4 -4L4 0L-4 4Z",
        Sign::Startup => "M-4 0A4 4 0 1 1 4 0A4 4 0 1 1 -4 0Z",
        Sign::Timer => "M-6 0A6 6 0 1 1 6 0A6 6 0 1 1 -6 0ZM0 -4V0L3 2",
        Sign::Action => "M0 -6L6 5H-6Z",
        Sign::Physical => "M0 -6L6 5H-6ZM-3 1H3",
        Sign::Reaction => "M-8 -5H1L5 0L1 5H-8L-4 0Z",
        Sign::Row => "M-4 -4H4V4H-4Z",
        Sign::Cut => "M-8 0L-3 -5L3 5L8 0",
    }
}

/// On which side of its point a text stands.
#[tactic(auto, unfolding(crate::specs::Svg::anchor_name))]
pub(crate) fn anchor_name(anchor: Anchor) -> &'static str
    ensures { result.now ≡ anchor_name anchor }
{
    match anchor {
        Anchor::Begins => "start",
        Anchor::Centred => "middle",
        Anchor::Ends => "end",
    }
}
