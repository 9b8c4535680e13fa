//! The age gate: a channel over a channel, which gives only frames that were put in the clock's slot.
ghost use Rattle.std.specs.Prelude.{◌≡◌};
ghost use Rattle.std.proofs.Common.{lit≤};

use crate::{Channel, ChannelFault, Delays, Lane, Taken};
use frame::FRAME_ROOM;

/// The delays of the age gate: a frame is given in the slot of its put alone.
pub struct AgeDelays;

impl Delays for AgeDelays {
    const TO_AIRCRAFT_DELAY: u32 = 0;

    const TO_GROUND_DELAY: u32 = 0;

    ghost TO_AIRCRAFT_DELAY = { 0 };

    ghost TO_GROUND_DELAY = { 0 };
}

/// A gate over a channel. A take gives none in place of a frame that was put in an earlier slot.
#[derive(Drop)]
pub struct AgeGate<C> {
    below: C,
}

impl<C: Channel> AgeGate<C> {
    /// A gate over a channel.
    pub fn new(below: C) -> AgeGate<C>
        ensures { result ≡ record { below = below } }
    {
        AgeGate { below }
    }
}

impl<C: Channel> Channel for AgeGate<C> {
    ghost use Rattle.channel.specs.Gates.{AgeSlots, AgePuts, AgeTakes};

    type Delays = AgeDelays;

    ghost clock = { λ g. C.clock g.below };

    ghost underway = { λ g. C.underway g.below };

    ghost slot_gives = { AgeSlots C.slot_gives };

    ghost put_gives = { AgePuts C.put_gives };

    ghost take_gives = { AgeTakes C.clock C.take_gives };

    ghost short_delays = { lit≤ tt };

    fn clock(&self) -> u32 {
        self.below.clock()
    }

    fn slot(&mut self, slot: u32) -> Result<(), ChannelFault> {
        self.below.slot(slot)
    }

    fn put(&mut self, lane: Lane, frame: &[u8]) -> Result<(), ChannelFault> {
        self.below.put(lane, frame)
    }

    /// The channel below takes into room of the gate's own, so that the buffer stays as it was where the answer is none.
    fn take(&mut self, lane: Lane, buffer: &mut [u8]) -> Result<Option<Taken>, ChannelFault> {
        if buffer.len() < FRAME_ROOM {
            return Err(ChannelFault::Buffer);
        }
        let clock = self.clock();
        let mut octets = [0; FRAME_ROOM];
        match self.below.take(lane, &mut octets)? {
            Some(taken) if taken.slot >= clock => {
                buffer[..taken.len].copy_from_slice(&octets[..taken.len]);
                Ok(Some(taken))
            }
            _ => Ok(None),
        }
    }
}
