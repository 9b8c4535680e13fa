//! A packet of a sending half.
ghost use Rattle.std.specs.Prelude.{◌≤◌};
ghost use Rattle.arrayvec.specs.ArrayVec.{array_vec_len};

use crate::standing::Tenure;
use arrayvec::ArrayVec;
use frame::{PACKET_BDUS, PACKET_ROOM};
use rules::Progress;

/// A packet under its reference number: how that stands, the packet's octets, and how far each of its BDUs is.
#[derive(Drop)]
pub(crate) struct Packet {
    pub standing: Tenure,
    pub octets: ArrayVec<u8, PACKET_ROOM>,
    pub bdus: [Progress; PACKET_BDUS],
    ghost fits: { array_vec_len octets ≤ 424 },
}
