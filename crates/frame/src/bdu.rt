//! A BDU that can be sent.
ghost use Rattle.std.specs.Prelude.{◌≡◌, ◌<◌, ◌≤◌, true, length};

use crate::header::BduHeader;

/// A basic data unit: its header and its octets, a part of the packet that it is cut from. All but a packet's
/// last BDU have 53 octets, the last has 1 to 53, and the eighth is a last one.
#[derive(Clone, Copy)]
pub struct Bdu<'a> {
    pub header: BduHeader,
    pub payload: &'a [u8],
    ghost reference: { header.rn < 4 },
    ghost priority: { header.q < 4 },
    ghost eight: { header.bsn < 8 },
    ghost last: { header.more ≡ true → header.bsn < 7 },
    ghost some: { 1 ≤ length payload.now },
    ghost most: { length payload.now ≤ 53 },
    ghost full: { header.more ≡ true → length payload.now ≡ 53 },
}
