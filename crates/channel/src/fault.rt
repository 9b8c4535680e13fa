//! What a channel refuses.
ghost use Rattle.std.specs.Prelude.{◌≡◌};
ghost use Rattle.channel.specs.Refusals.{refusal_of};

use frame::{Layer, Reason, Refusal};

/// What a channel refuses.
#[derive(Clone, Copy, Debug)]
pub enum ChannelFault {
    /// A slot below the clock or above the last one.
    Slot,
    /// A frame of over 61 octets, or a buffer of fewer.
    Buffer,
}

impl From<ChannelFault> for Refusal {
    ghost from_gives = { λ fault r. r ≡ refusal_of fault };

    /// The reason and layer of what a channel refuses. There is no place.
    fn from(fault: ChannelFault) -> Refusal {
        let reason = match fault {
            ChannelFault::Slot => Reason::Slot,
            ChannelFault::Buffer => Reason::Buffer,
        };
        Refusal {
            reason,
            layer: Layer::Channel,
            place: None,
        }
    }
}
