//! The two halves of an end: the receiving half and the sending half, and the worked examples on their calls.
#![tactic(auto)]

pub use examples::{Examples, Expiry, Sent, worked_examples};
pub use receiver::{HandUp, Receiver};
pub use sender::{PacketSet, Pause, Sender, ToSend};

mod examples;
