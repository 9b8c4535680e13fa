//! How a frame is given.
ghost use Rattle.std.specs.Prelude.{◌≡◌, ◌≤◌, ◌++◌, length, drop};

use crate::Taken;

/// Writes a frame's octets at the front of a buffer.
pub(crate) fn give(octets: &[u8], slot: u32, buffer: &mut [u8]) -> Taken
    requires { length octets.now ≤ length buffer.old }
    ensures taken { result ≡ record { len = length octets.now; slot = slot } }
    ensures buffer { buffer.new ≡ octets.now ++ drop (length octets.now) buffer.old }
{
    let len = octets.len();
    buffer[..len].copy_from_slice(octets);
    Taken { len, slot }
}
