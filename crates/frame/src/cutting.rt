//! How a packet is cut into BDUs.
ghost use Rattle.std.specs.Prelude.{◌<◌, ◌≤◌};

// Q and RN one by one, as a header has them; the key of a packet is above this crate.
/// What the cutting of a packet turns on: its priority, its reference number and its length, 1 to 424 octets.
#[derive(Clone, Copy)]
pub struct Cutting {
    pub q: u8,
    pub rn: u8,
    pub len: usize,
    ghost priority: { q < 4 },
    ghost reference: { rn < 4 },
    ghost some: { 1 ≤ len },
    ghost most: { len ≤ 424 },
}
