//! Cutting a packet into BDUs.
ghost use Rattle.std.specs.Prelude.{◌≡◌};
ghost use Rattle.frame.specs.Packets.{bdus_in, CutMade, HeaderCut, PartCut, PartsJoin};

use crate::cutting::Cutting;
use crate::fault::FrameFault;
use crate::header::BduHeader;
use crate::sizes::{BDU_ROOM, PACKET_ROOM};

impl Cutting {
    /// The cutting of a packet under a priority and a reference number; refused where the packet has no or
    /// over 424 octets, or one of the two is above 3.
    pub fn new(q: u8, rn: u8, len: usize) -> Result<Cutting, FrameFault>
        ensures { CutMade q rn len result }
    {
        if q > 3 || rn > 3 || len < 1 || len > PACKET_ROOM {
            return Err(FrameFault::Packet);
        }
        Ok(Cutting { q, rn, len })
    }

    /// How many BDUs the packet has.
    pub fn bdus(self) -> usize
        ensures { result ≡ bdus_in self.len }
    {
        self.len.div_ceil(BDU_ROOM)
    }

    /// The header of the packet's BDU `bsn`; none behind the last.
    pub fn header(self, bsn: u8) -> Option<BduHeader>
        ensures { HeaderCut self bsn result }
    {
        let next = usize::from(bsn) + 1;
        if next > self.bdus() {
            return None;
        }
        Some(BduHeader {
            rn: self.rn,
            q: self.q,
            more: next < self.bdus(),
            bsn,
        })
    }
}

/// The octets of a packet's BDU `bsn`, as a part of the packet; none behind the last. Joined, these parts are the packet.
#[tactic(auto, using(crate::proofs::Parts::parts_join))]
pub fn part(packet: &[u8], bsn: u8) -> Option<&[u8]>
    ensures part { PartCut packet.now bsn result }
    ensures join { PartsJoin }
{
    // Not `chunks(..).nth(..)`: the library's `nth` goes by each chunk before.
    packet
        .get(BDU_ROOM * usize::from(bsn)..)?
        .chunks(BDU_ROOM)
        .next()
}
