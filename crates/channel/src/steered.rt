//! The steered line: a channel that a list of octets steers.
ghost use Rattle.std.specs.Prelude.{◌≡◌};
ghost use Rattle.std.proofs.Common.{lit≤};
ghost use Rattle.channel.specs.Channels.{Slots, Puts, Takes};
ghost use Rattle.channel.specs.Lines as line;
ghost use Rattle.channel.specs.Lines.{clock_of, carried};

use crate::places::{Carried, Places};
use crate::{Channel, ChannelFault, Delays, Lane, Taken};
use arrayvec::ArrayVec;
use frame::FRAME_ROOM;
use rules::last_slot;
use std::marker::Model;

/// The steered line: 16 places on each lane, and a list of octets, one for each take.
#[derive(Drop)]
pub struct Steered<'a> {
    clock: u32,
    to_aircraft: Places,
    to_ground: Places,
    steering: &'a [u8],
}

// A contract sees the frames in the places and the octets that are left.
impl<'a> Model for Steered<'a> {
    ghost use Rattle.channel.specs.Lines.{Line};

    ghost Value = { Line };

    ghost use Rattle.channel.specs.Places.{frames_of};

    ghost view = { λ s. record { clock = s.clock; to_aircraft = frames_of s.to_aircraft; to_ground = frames_of s.to_ground; steering = s.steering.now } };
}

impl<'a> Steered<'a> {
    /// An empty line at clock 0, with the octets that steer its takes.
    pub fn new(steering: &'a [u8]) -> Steered<'a>
        ensures { result ≡ line.new steering.now }
    {
        Steered {
            clock: 0,
            to_aircraft: Places::new(),
            to_ground: Places::new(),
            steering,
        }
    }

    /// Reads the next octet of the list, 0 past its end.
    fn turn(&mut self) -> u8
        ensures octet { result ≡ line.turn self.old }
        ensures line { self.new ≡ line.turned self.old }
    {
        let Some((octet, rest)) = self.steering.split_first() else {
            return 0;
        };
        self.steering = rest;
        *octet
    }
}

/// The delays of the steered line.
#[derive(Clone, Copy)]
pub struct SteeredDelays;

impl Delays for SteeredDelays {
    const TO_AIRCRAFT_DELAY: u32 = 1;

    const TO_GROUND_DELAY: u32 = 0;

    ghost TO_AIRCRAFT_DELAY = { 1 };

    ghost TO_GROUND_DELAY = { 0 };
}

impl<'a> Channel for Steered<'a> {
    type Delays = SteeredDelays;

    ghost clock = { clock_of };

    ghost underway = { carried };

    ghost slot_gives = { line.Slots };

    ghost put_gives = { line.Puts };

    ghost take_gives = { line.Takes };

    ghost short_delays = { lit≤ tt };

    fn clock(&self) -> u32
        ensures channel { result ≡ self.now.clock }
    {
        self.clock
    }

    /// A slot drops nothing: a frame that is too old keeps its place until a take empties it.
    fn slot(&mut self, slot: u32) -> Result<(), ChannelFault>
        ensures channel { Slots clock_of carried self.old slot result self.new }
        ensures gives { line.Slots self.old slot result self.new }
    {
        if !(self.clock..=last_slot()).contains(&slot) {
            return Err(ChannelFault::Slot);
        }
        self.clock = slot;
        Ok(())
    }

    /// The frame fills the first empty place of the lane, or is lost if there is none.
    fn put(&mut self, lane: Lane, frame: &[u8]) -> Result<(), ChannelFault>
        ensures channel { Puts clock_of carried self.old lane frame.now result self.new }
        ensures gives { line.Puts self.old lane frame.now result self.new }
    {
        let octets = ArrayVec::try_from(frame).map_err(|_| ChannelFault::Buffer)?;
        let slot = self.clock;
        let carried = Carried { octets, slot };
        match lane {
            Lane::ToAircraft => self.to_aircraft.put(carried),
            Lane::ToGround => self.to_ground.put(carried),
        }
        Ok(())
    }

    /// The next octet of the list steers: bits 0 to 3 name the place, which is emptied then, unless bit 4 is set. If the
    /// place was empty or its frame is too old, the answer is `None`.
    fn take(&mut self, lane: Lane, buffer: &mut [u8]) -> Result<Option<Taken>, ChannelFault>
        ensures channel { Takes clock_of carried line.delay self.old lane buffer.old result self.new buffer.new }
        ensures gives { line.Takes self.old lane buffer.old result self.new buffer.new }
    {
        if buffer.len() < FRAME_ROOM {
            return Err(ChannelFault::Buffer);
        }
        let octet = self.turn();
        let since = self.clock.saturating_sub(SteeredDelays::of(lane));
        Ok(match lane {
            Lane::ToAircraft => self.to_aircraft.take(octet, since, buffer),
            Lane::ToGround => self.to_ground.take(octet, since, buffer),
        })
    }
}
