ghost use Rattle.std.specs.Prelude.{◌≡◌, ◌<◌, ◌^◌, length, IfSome};
ghost use Rattle.plan.specs.Federation.{federate_number, found_output, found_input};
ghost use Rattle.plan.specs.External.{found_action};

use crate::draft::Federate;
use crate::input::Input;
use plan_names::{PortName, Text, place_of};
use std::marker::Model;

/// Where a port or an action was found: the federate's number, and the place among its names of that kind.
#[derive(Clone, Copy)]
pub(crate) struct Found {
    pub(crate) federate: usize,
    pub(crate) place: usize,
}

impl Model for Found {
    ghost use Rattle.plan.specs.Federation.{Found as FoundOf};

    ghost Value = { FoundOf };

    ghost view = { λ f. record { federate = f.federate; place = f.place } };

    ghost inverse = { λ f. record { federate = f.federate; place = f.place } };
}

/// The number of the federate of this name.
pub(crate) fn federate_number(federates: &[Federate], name: &Text) -> Option<usize>
    ensures value { result ≡ federate_number federates.now name.now }
    ensures in_range { IfSome result (λ number. number < length federates.now) }
{
    place_of(federates, name.as_str().as_bytes())
}

/// The output port of this name.
pub(crate) fn found_output(federates: &[Federate], port: &PortName) -> Option<Found>
    ensures value { result ≡ found_output federates.now port.now }
{
    let federate = federate_number(federates, &port.federate)?;
    let names = &federates[federate].slots.outputs;
    let place = names.place_of(port.port.as_str().as_bytes())?;
    Some(Found { federate, place })
}

/// The input port of this name.
pub(crate) fn found_input(federates: &[Federate], port: &PortName) -> Option<Found>
    ensures value { result ≡ found_input federates.now port.now }
    ensures small { IfSome result (λ found. found.place < 2 ^ 63) }
{
    let federate = federate_number(federates, &port.federate)?;
    let names = &federates[federate].slots.inputs;
    // For the prover: a slice has fewer than 2^63 elements.
    let _names = names.as_slice();
    let place = names.place_of(port.port.as_str().as_bytes())?;
    Some(Found { federate, place })
}

/// The physical action of a recorded input.
pub(crate) fn found_action(federates: &[Federate], input: &Input) -> Option<Found>
    ensures value { result ≡ found_action federates.now input.now }
    ensures there { IfSome result (λ found. found.federate < length federates.now) }
    ensures small { IfSome result (λ found. found.place < 2 ^ 63) }
{
    let federate = federate_number(federates, &input.federate)?;
    let names = &federates[federate].slots.physical;
    // For the prover: as above.
    let _names = names.as_slice();
    let place = names.place_of(input.action.as_str().as_bytes())?;
    Some(Found { federate, place })
}
