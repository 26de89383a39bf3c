//! Why a connection isn't let in, why none is made, and why a node gives up.
ghost use Rattle.std.specs.Prelude.{◌≡◌};
ghost use Rattle.fedrun_watch.specs.Causes.{not_let_in_text, unreached_text, failed_text, given_up_text};

use wires_hosts::{DialFault, GivenUp, NotLetIn, Unreached};

/// Why a connection isn't let in.
pub(crate) fn not_let_in_text(why: NotLetIn) -> &'static str
    ensures { result.now ≡ not_let_in_text why }
{
    match why {
        NotLetIn::NoGreeting => "no greeting came",
        NotLetIn::OtherProtocol => "what came is no greeting of this protocol and version",
        NotLetIn::OtherFiles => "it has another federation file or another input file",
        NotLetIn::NoSuchFederate => "there is no federate of its number",
        NotLetIn::NotAllowed => "its federate may take part no more",
        NotLetIn::NoProof =>
            "no proof of the secret came: the secrets differ, or it was ended before",
        NotLetIn::NotProved => "it has another secret",
        NotLetIn::NoHello => "its first frame didn't come, or is no Hello of it",
    }
}

// Why there is no connection to an address.
fn unreached_text(why: Unreached) -> &'static str
    ensures { result.now ≡ unreached_text why }
{
    match why {
        Unreached::NoAddress => "no address is found by this name",
        Unreached::Refused => "nobody listens there",
        Unreached::TimeOver => "nothing answers there",
        Unreached::NoWay => "no way leads there",
        Unreached::Other => "the system makes no connection",
    }
}

/// Why there is no connection.
pub(crate) fn failed_text(fault: DialFault) -> &'static str
    ensures { result.now ≡ failed_text fault }
{
    match fault {
        DialFault::NotConnected(why) => unreached_text(why),
        DialFault::NoRandom => "the system gives no random bytes",
        DialFault::NoAnswer => "whoever is there said nothing, or not all of it",
        DialFault::NotProved => "whoever is there has another secret, or is no coordinator",
        DialFault::OtherFiles =>
            "the coordinator has another federation file or another input file",
        DialFault::NoSuchFederate => "the coordinator has no federate of this number",
        DialFault::Finished => "the run is finished",
        DialFault::NotAllowed => "the coordinator lets this federate take part no more",
    }
}

/// Why a node gives up.
pub(crate) fn given_up_text(why: GivenUp) -> &'static str
    ensures { result.now ≡ given_up_text why }
{
    match why {
        GivenUp::Silence => "nobody who proved the secret was heard for its patience",
        GivenUp::Unkept => "its log takes nothing more",
    }
}
