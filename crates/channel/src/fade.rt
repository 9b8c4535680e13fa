//! The fade gate: a channel over a channel, which loses what is put in a bad slot.
ghost use Rattle.std.specs.Prelude.{◌≡◌};

use crate::{Channel, ChannelFault, Lane, Taken};
use frame::FRAME_ROOM;

/// The fade gate looks at the slot modulo this.
pub const FADE_CYCLE: usize = 13;

/// A gate over a channel. A slot whose number modulo 13 is marked is a bad one: what is put in it is lost.
#[derive(Drop)]
pub struct FadeGate<C> {
    below: C,
    marked: [bool; FADE_CYCLE],
}

impl<C: Channel> FadeGate<C> {
    ghost use Rattle.channel.specs.Gates.{is_bad};

    /// A gate over a channel, with the marks of the numbers 0 to 12.
    pub fn new(below: C, marked: [bool; FADE_CYCLE]) -> FadeGate<C>
        ensures { result ≡ record { below = below; marked = marked } }
    {
        FadeGate { below, marked }
    }

    /// Whether the clock's slot is a bad one.
    fn is_bad(&self) -> bool
        ensures { result ≡ is_bad self.now.marked (C.clock self.now.below) }
    {
        self.marked[self.clock() as usize % FADE_CYCLE]
    }
}

impl<C: Channel> Channel for FadeGate<C> {
    ghost use Rattle.channel.specs.Gates.{FadeSlots, FadePuts, FadeTakes};

    type Delays = C::Delays;

    ghost clock = { λ g. C.clock g.below };

    ghost underway = { λ g. C.underway g.below };

    ghost slot_gives = { FadeSlots C.slot_gives };

    ghost put_gives = { FadePuts C.clock C.put_gives };

    ghost take_gives = { FadeTakes C.take_gives };

    ghost short_delays = { C.short_delays };

    fn clock(&self) -> u32 {
        self.below.clock()
    }

    fn slot(&mut self, slot: u32) -> Result<(), ChannelFault> {
        self.below.slot(slot)
    }

    /// A frame that is put in a bad slot is lost. A frame of too many octets is refused by the channel below in any slot.
    fn put(&mut self, lane: Lane, frame: &[u8]) -> Result<(), ChannelFault> {
        if self.is_bad() && frame.len() <= FRAME_ROOM {
            return Ok(());
        }
        self.below.put(lane, frame)
    }

    fn take(&mut self, lane: Lane, buffer: &mut [u8]) -> Result<Option<Taken>, ChannelFault> {
        self.below.take(lane, buffer)
    }
}
