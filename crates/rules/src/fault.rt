//! What an end refuses.
ghost use Rattle.std.specs.Prelude.{◌≡◌, None};
ghost use Rattle.frame.specs.declared.fault.Layer.TheVariants.{End};
ghost use Rattle.rules.specs.Refusals.{refusal_of};
ghost use Rattle.rules.specs.declared.fault.EndFault.TheVariants as faults;

use frame::{FrameFault, Layer, Reason, Refusal};

/// What an end refuses.
#[derive(Clone, Copy)]
pub enum EndFault {
    /// A slot below the clock or above the last one.
    Slot,
    /// A packet whose length is not 1 to 424, or a priority above 3.
    Packet,
    /// A frame buffer under 61 octets, or a packet buffer under 424 for readable data.
    Buffer,
    /// What the frame layer refuses: a frame that is unreadable, with its place.
    Frame(FrameFault),
    /// A log-on number that is not greater; accept, send or report at a new end.
    LogOn,
    /// A frame for another direction, aircraft or log-on.
    Elsewhere,
    /// A data number that is not awaited; a report that acknowledges what it cannot.
    Number,
    /// A BDU that contradicts its place.
    Contradiction,
    /// No reference number of the priority is free.
    NoReference,
    /// Log on of aircraft 0 or 255, or of another than a logged-on end's.
    Aircraft,
}

/// A refusal that the end itself makes.
fn of_end(reason: Reason) -> Refusal
    ensures { result ≡ record { reason = reason; layer = End; place = None } }
{
    Refusal {
        reason,
        layer: Layer::End,
        place: None,
    }
}

impl From<EndFault> for Refusal {
    ghost from_gives = { λ fault r. r ≡ refusal_of fault };

    /// The reason, layer and place of what an end refuses. What the frame layer refused comes up unaltered.
    fn from(fault: EndFault) -> Refusal {
        match fault {
            EndFault::Slot => of_end(Reason::Slot),
            EndFault::Packet => of_end(Reason::Packet),
            EndFault::Buffer => of_end(Reason::Buffer),
            EndFault::Frame(fault) => Refusal::from(fault),
            EndFault::LogOn => of_end(Reason::LogOn),
            EndFault::Elsewhere => of_end(Reason::Elsewhere),
            EndFault::Number => of_end(Reason::Number),
            EndFault::Contradiction => of_end(Reason::Contradiction),
            EndFault::NoReference => of_end(Reason::NoReference),
            EndFault::Aircraft => of_end(Reason::Aircraft),
        }
    }
}

impl From<FrameFault> for EndFault {
    ghost from_gives = { λ fault r. r ≡ faults.Frame fault };

    fn from(fault: FrameFault) -> EndFault {
        EndFault::Frame(fault)
    }
}
