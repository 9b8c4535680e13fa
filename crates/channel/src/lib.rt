//! Channels: what carries frames between two ends, and the lines in which frames and notices wait.
#![tactic(auto)]

pub use age::{AgeDelays, AgeGate};
pub use channel::{Channel, Delays, Lane, Taken};
pub use fade::{FADE_CYCLE, FadeGate};
pub use fault::ChannelFault;
pub use line::{LineFull, WaitingLine};
pub use steered::{Steered, SteeredDelays};
pub use wire::{Entry, Wire, WireDelays};

mod age;
mod channel;
mod fade;
mod fault;
#[cfg(test)]
mod gate_tests;
mod giving;
mod line;
mod places;
mod steered;
#[cfg(test)]
mod tests;
mod wire;
