//! How a reference number stands as slots go by.
ghost use Rattle.std.specs.Prelude.{◌≡◌};
ghost use Rattle.sender.specs.Standings.{standing_of};
ghost use Rattle.rules.specs.Sending as rule;
ghost use Rattle.rules.specs.Choice.{since_of};

use rules::{has_passed, lifetime, rest};

/// How a reference number is held: it is free, or its packet was accepted in a slot and is pending, or has expired and
/// the number rests. The slot at which it has rested is 149 behind the accept, and does not always fit 32 bits.
#[derive(Clone, Copy)]
pub(crate) enum Tenure {
    Free,
    Pending { since: u32 },
    Resting { since: u32 },
}

impl Tenure {
    /// Whether its packet expires in the slot, or has before.
    pub(crate) fn is_late(self, slot: u32) -> bool
        ensures { result ≡ rule.is_late slot (standing_of self) }
    {
        matches!(self, Tenure::Pending { since } if has_passed(since, lifetime(), slot))
    }

    /// How it is held in the slot: a packet expires, and a number that has rested is free.
    pub(crate) fn aged(self, slot: u32) -> Tenure
        ensures { standing_of result ≡ rule.aged slot (standing_of self) }
    {
        match self {
            Tenure::Pending { since } | Tenure::Resting { since }
                if has_passed(since, rest(), slot) => { Tenure::Free }
            Tenure::Pending { since } if self.is_late(slot) => Tenure::Resting { since },
            other => other,
        }
    }

    /// Whether the number is free.
    pub(crate) fn is_free(self) -> bool
        ensures { result ≡ rule.is_free (standing_of self) }
    {
        matches!(self, Tenure::Free)
    }

    /// Whether its packet is pending.
    pub(crate) fn is_pending(self) -> bool
        ensures { result ≡ rule.is_pending (standing_of self) }
    {
        matches!(self, Tenure::Pending { .. })
    }

    /// The slot of a pending packet's accept.
    // 0 for another and no `Option`: the rules have it so, and only packets with a BDU that waits are asked.
    pub(crate) fn accepted_in(self) -> u32
        ensures { result ≡ since_of (standing_of self) }
    {
        match self {
            Tenure::Pending { since } => since,
            Tenure::Free | Tenure::Resting { .. } => 0,
        }
    }
}
