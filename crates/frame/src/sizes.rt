//! How large things are. Halves are made of arrays and vectors of these sizes, since none of them may allocate.

/// The octets of a BDU that is not a packet's last; no BDU has more.
pub const BDU_ROOM: usize = 53;

/// The most octets of a packet.
pub const PACKET_ROOM: usize = 424;

/// The most BDUs of a packet.
pub const PACKET_BDUS: usize = 8;

/// The packets that a half holds at once, one for each Q and RN.
pub const HALF_PACKETS: usize = 16;

/// The octets of the longest frame, which a buffer for frames must have.
pub const FRAME_ROOM: usize = 61;
