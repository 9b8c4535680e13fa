//! Refusals: what a call answers when it says no.
ghost use Rattle.std.specs.Prelude.{◌≡◌};
ghost use Rattle.frame.specs.Reasons.{number_of};
ghost use Rattle.frame.specs.Refusals.{refused};

/// The layer that refused.
#[derive(Clone, Copy)]
pub enum Layer {
    Frame,
    End,
    Channel,
    Station,
    Linkrun,
}

/// Why a call says no. Programs and logs print a reason as its number.
#[derive(Clone, Copy)]
pub enum Reason {
    /// A slot below the clock or above the last one.
    Slot,
    /// A packet of no or over 424 octets, or a priority or reference number above 3.
    Packet,
    /// A buffer that is too short for a frame or a packet, or a frame that is too long for a channel.
    Buffer,
    /// A frame that cannot be read; the refusal has the place of the first octet that is wrong, missing or too many.
    Unreadable,
    /// A log-on number that is not greater, or a call that needs a log-on, where there was none.
    LogOn,
    /// A frame for another direction, aircraft or log-on.
    Elsewhere,
    /// A data number that is not awaited, or a report that acknowledges what it cannot.
    Number,
    /// A BDU that contradicts its place.
    Contradiction,
    /// No reference number of the priority is free.
    NoReference,
    /// Aircraft 0 or 255, another than a logged-on end's, or one that is not in the station's table.
    Aircraft,
    /// No record of the station is free.
    NoRecord,
    /// Too few places for notices.
    NoNotices,
    /// A line that is no form; the refusal has the column of the first character that fits none.
    Form,
    /// A caller's own reason, by its number; no call of ours answers it.
    Other(u8),
}

impl From<Reason> for u8 {
    ghost from_gives = { λ reason r. r ≡ number_of reason };

    /// The number of a reason.
    fn from(reason: Reason) -> u8 {
        match reason {
            Reason::Slot => 1,
            Reason::Packet => 2,
            Reason::Buffer => 3,
            Reason::Unreadable => 4,
            Reason::LogOn => 5,
            Reason::Elsewhere => 6,
            Reason::Number => 7,
            Reason::Contradiction => 8,
            Reason::NoReference => 9,
            Reason::Aircraft => 10,
            Reason::NoRecord => 11,
            Reason::NoNotices => 12,
            Reason::Form => 13,
            Reason::Other(number) => number,
        }
    }
}

/// A refusal as every caller sees it: its reason, the layer that made it and, where the reason has one, a place.
#[derive(Clone, Copy)]
pub struct Refusal {
    pub reason: Reason,
    pub layer: Layer,
    pub place: Option<usize>,
}

/// What the frame layer refuses.
#[derive(Clone, Copy, Debug)]
pub enum FrameFault {
    /// A packet of no or over 424 octets, or a priority or reference number above 3.
    Packet,
    /// A buffer of under 61 octets for a frame.
    Buffer,
    /// An unreadable frame, with the place of the first octet that is wrong, missing or too many.
    Unreadable { place: usize },
    /// Aircraft 0 or 255.
    Aircraft,
}

impl From<FrameFault> for Refusal {
    ghost from_gives = { λ fault r. r ≡ refused fault };

    /// The reason, layer and place of what the frame layer refuses.
    fn from(fault: FrameFault) -> Refusal {
        let (reason, place) = match fault {
            FrameFault::Packet => (Reason::Packet, None),
            FrameFault::Buffer => (Reason::Buffer, None),
            FrameFault::Unreadable { place } => (Reason::Unreadable, Some(place)),
            FrameFault::Aircraft => (Reason::Aircraft, None),
        };
        Refusal {
            reason,
            layer: Layer::Frame,
            place,
        }
    }
}
