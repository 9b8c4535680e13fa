//! Frames of the reliable link: numbers, BDU headers, packets cut into BDUs, the four frames read and written.
#![tactic(auto)]

pub use bdu::Bdu;
pub use cut::part;
pub use cutting::Cutting;
pub use direction::{Direction, Downlink, Uplink};
pub use fault::{FrameFault, Layer, Reason, Refusal};
pub use flags::Flags;
pub use header::BduHeader;
pub use kind::{Kind, Way};
pub use logon::LogOn;
pub use number::{DownlinkNumber, FrameNumber, Number, UplinkNumber};
pub use reader::{Frame, read};
pub use sizes::{BDU_ROOM, FRAME_ROOM, HALF_PACKETS, PACKET_BDUS, PACKET_ROOM};
pub use writer::{write_data, write_report};

mod bdu;
mod cut;
mod cutting;
mod direction;
mod fault;
mod flags;
mod header;
mod kind;
mod logon;
mod number;
mod reader;
mod sizes;
#[cfg(test)]
mod tests;
mod writer;
