//! A log-on.
ghost use Rattle.std.specs.Prelude.{◌≡◌, ◌≤◌, MatchResult};

use crate::fault::FrameFault;

/// A log-on: an aircraft, 1 to 254, with the number under which it logged on.
#[derive(Clone, Copy)]
pub struct LogOn {
    pub aircraft: u8,
    pub number: u32,
    ghost low: { 1 ≤ aircraft },
    ghost high: { aircraft ≤ 254 },
}

impl LogOn {
    /// The log-on of an aircraft under a number; refused for aircraft 0 and 255.
    pub fn new(aircraft: u8, number: u32) -> Result<LogOn, FrameFault>
        ensures { MatchResult result (λ on. (on.aircraft ≡ aircraft) × (on.number ≡ number))
            (λ fault. (fault ≡ FrameFault.Aircraft) × (1 ≤ aircraft → aircraft ≤ 254 → ⊥)) }
    {
        if aircraft < 1 || aircraft > 254 {
            return Err(FrameFault::Aircraft);
        }
        Ok(LogOn { aircraft, number })
    }
}
