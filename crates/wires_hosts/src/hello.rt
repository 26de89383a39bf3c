ghost use Rattle.std.specs.Prelude.{◌≡◌};
ghost use Rattle.wires_hosts.specs.Hello as definition;

use signal::Frame;

/// Whether a frame is a Hello of this federate.
pub(crate) fn is_hello_of(federate: u16, frame: &Frame) -> bool
    ensures { result ≡ definition.is_hello_of federate frame.now }
{
    match *frame {
        Frame::Hello(hello) => hello.federate == federate,
        _ => false,
    }
}
