//! What a sending half sends next.
use frame::{BduHeader, Number};

/// What goes in the next data frame: its number and its BDU's header; and where in the window the number is.
#[derive(Clone, Copy)]
pub struct ToSend<N: Number> {
    pub number: N,
    pub header: BduHeader,
    pub(crate) entry: usize,
}

/// Why a sending half sends nothing: no BDU waits, eight data frames went in this slot, or the window has no number for the
/// BDU.
#[derive(Clone, Copy)]
pub enum Pause {
    Idle,
    Full,
    Shut,
}
