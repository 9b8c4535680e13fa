//! Sets of packets.
ghost use Rattle.std.specs.Prelude.{◌≡◌, length};
ghost use Rattle.sender.specs.Sets.{packets_in, Contains};

use frame::HALF_PACKETS;
use rules::PacketKey;

/// Packets of a sending half, by priority and reference number.
#[derive(Clone, Copy)]
pub struct PacketSet {
    pub(crate) marks: [bool; HALF_PACKETS],
}

impl PacketSet {
    /// Whether a packet is in the set.
    pub fn contains(self, key: PacketKey) -> bool
        ensures { Contains (packets_in self) (key.q, key.rn) result }
    {
        key.rn < 4 && self.marks.get(key.place()).copied().unwrap_or(false)
    }

    /// How many packets are in the set.
    pub fn len(self) -> usize
        ensures { result ≡ length (packets_in self) }
    {
        self.marks.iter().filter(|mark| **mark).count()
    }
}
