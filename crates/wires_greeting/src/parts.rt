//! Parts of messages.

ghost use Rattle.std.specs.Prelude.{◌≡◌, length};

/// These bytes, of which there are 32, as an array.
pub fn array_of(bytes: &[u8]) -> [u8; 32]
    requires { length bytes.now ≡ 32 }
    ensures { result ≡ bytes.now }
{
    let mut array = [0; 32];
    array.copy_from_slice(bytes);
    array
}
