//! What a report says, and what a half shows of its numbers.
use frame::{Flags, Number};

/// A report: the oldest number that was not received, and the flags of the eight behind it.
#[derive(Clone, Copy)]
pub struct Report<N: Number> {
    pub oldest: N,
    pub flags: Flags,
}

/// What a half shows of its numbers: the oldest one not received, or not acknowledged, and which of the eight behind it are.
#[derive(Clone, Copy)]
pub struct Shown<N: Number> {
    pub oldest: N,
    pub done: [bool; 8],
}
