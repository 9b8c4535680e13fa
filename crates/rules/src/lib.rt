//! The rules of the reliable link over models: what a receiving half, a sending half and an end hold, and what each call makes of it.
#![tactic(auto)]

pub use constants::{frames_a_slot, hold, last_slot, lifetime, rest, return_age, window_size};
pub use fault::EndFault;
pub use report::{Report, Shown};
pub use window::{BduKey, Mark, PacketKey, Progress, Standing, has_passed};

mod constants;
mod fault;
mod report;
mod window;
