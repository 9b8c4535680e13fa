//! What every channel keeps to. It may lose, hold back, repeat and reorder frames, but never makes one up.
ghost use Rattle.std.specs.Prelude.{◌≡◌, ℕ, ◌+◌, ◌≤◌, List};
ghost use Rattle.rules.specs.Constants.{delays};
ghost use Rattle.channel.specs.Channels.{Underway, SlotCall, PutCall, TakeCall, Slots, Puts, Takes, by_lane};
ghost use Rattle.channel.specs.declared.channel.Lane.{Lane};

use crate::ChannelFault;

/// A lane of a channel.
#[derive(Clone, Copy)]
pub enum Lane {
    ToAircraft,
    ToGround,
}

/// A frame that a take gives: how many octets it has, at the front of the buffer, and the slot of its put.
#[derive(Clone, Copy)]
pub struct Taken {
    pub len: usize,
    pub slot: u32,
}

// A trait of its own: the prover reads a constant of an `impl` only where its type has no lifetime, and most channels have one.
/// The delays of a channel: how many slots after its put a frame is still given, on each lane.
pub trait Delays {
    const TO_AIRCRAFT_DELAY: u32;

    const TO_GROUND_DELAY: u32;

    ghost TO_AIRCRAFT_DELAY: { ℕ };

    ghost TO_GROUND_DELAY: { ℕ };

    /// The delay of a lane.
    final fn of(lane: Lane) -> u32
        ensures { result ≡ by_lane TO_AIRCRAFT_DELAY TO_GROUND_DELAY lane }
    {
        match lane {
            Lane::ToAircraft => Self::TO_AIRCRAFT_DELAY,
            Lane::ToGround => Self::TO_GROUND_DELAY,
        }
    }
}

/// A channel: its clock, and on each lane the frames underway, each with the slot of its put.
pub trait Channel {
    type Delays: Delays;

    ghost clock: { Self → ℕ };

    ghost underway: { Self → Lane → List Underway };

    // What each call answers and leaves, which a channel above passes on.
    ghost slot_gives: { SlotCall Self };

    ghost put_gives: { PutCall Self };

    ghost take_gives: { TakeCall Self };

    /// The slot that the channel is in.
    fn clock(&self) -> u32
        ensures channel { result ≡ clock self.now };

    /// The slot begins. It is refused as `Slot` if it is below the clock or above the last one.
    fn slot(&mut self, slot: u32) -> Result<(), ChannelFault>
        ensures channel { Slots clock underway self.old slot result self.new }
        ensures gives { slot_gives self.old slot result self.new };

    /// Hands a frame to a lane, which may lose it. It is refused as `Buffer` if it has over 61 octets.
    fn put(&mut self, lane: Lane, frame: &[u8]) -> Result<(), ChannelFault>
        ensures channel { Puts clock underway self.old lane frame.now result self.new }
        ensures gives { put_gives self.old lane frame.now result self.new };

    /// Asks a lane for a frame, which is written at the front of the buffer. It is refused as `Buffer` if the buffer has
    /// fewer than 61 octets.
    fn take(&mut self, lane: Lane, buffer: &mut [u8]) -> Result<Option<Taken>, ChannelFault>
        ensures channel { Takes clock underway (by_lane Self.Delays.TO_AIRCRAFT_DELAY Self.Delays.TO_GROUND_DELAY)
            self.old lane buffer.old result self.new buffer.new }
        ensures gives { take_gives self.old lane buffer.old result self.new buffer.new };

    ghost short_delays: { Self.Delays.TO_AIRCRAFT_DELAY + Self.Delays.TO_GROUND_DELAY ≤ delays };
}
