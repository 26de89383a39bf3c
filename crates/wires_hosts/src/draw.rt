ghost use Rattle.std.specs.Prelude.{◌≡◌, ◌<◌, IfSome};
ghost use Rattle.wires_hosts.specs.Draw as definition;

/// The place among this many that these random bytes draw; none among none.
pub fn drawn(bytes: [u8; 8], count: usize) -> Option<usize>
    ensures drawn { result ≡ definition.drawn bytes count }
    ensures among { IfSome result (λ place. place < count) }
{
    if count == 0 {
        None
    } else {
        Some(usize::from_be_bytes(bytes) % count)
    }
}
