//! The receiving half of an end, one text for both directions.
#![tactic(auto)]

pub use receiver::{HandUp, Receiver};

mod place;
mod receiver;
