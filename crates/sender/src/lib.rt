//! The sending half of an end, one text for both directions.
#![tactic(auto)]

pub use choice::{Pause, ToSend};
pub use sender::Sender;
pub use set::PacketSet;

mod choice;
mod hearing;
mod mark;
mod outgoing;
mod packet;
mod packets;
mod row;
mod sender;
mod set;
mod standing;
mod window;
