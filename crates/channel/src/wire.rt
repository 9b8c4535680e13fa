//! The wire: a channel that gives each frame once, in the order of the puts.
ghost use Rattle.std.specs.Prelude.{◌≡◌, ◌≤◌, [], length, MatchResult};
ghost use Rattle.std.proofs.Common.{lit≤};
ghost use Rattle.channel.specs.Channels.{Slots, Puts, Takes};
ghost use Rattle.channel.specs.Places.{answer, written};
ghost use Rattle.channel.specs.WaitingLines.{empty, oldest, pushed, popped};

use crate::giving::give;
use crate::{Channel, ChannelFault, Delays, Lane, Taken, WaitingLine};
use frame::FRAME_ROOM;
use rules::last_slot;
use std::marker::Model;

/// The most frames that wait on a lane.
const LANE_PLACES: usize = 32;

/// A place for a frame underway, with the slot of its put. The caller lends a wire its places.
#[derive(Clone, Copy)]
pub struct Entry {
    octets: [u8; FRAME_ROOM],
    len: usize,
    slot: u32,
    ghost within: { len ≤ 61 },
}

impl Entry {
    ghost use Rattle.channel.specs.Wires.{underway_of};

    /// A place with an empty frame, to fill a room with.
    pub fn empty() -> Entry
        ensures { underway_of result ≡ record { 0 = []; 1 = 0 } }
    {
        Entry {
            octets: [0; FRAME_ROOM],
            len: 0,
            slot: 0,
        }
    }

    /// A frame with the slot of its put, unless it has over 61 octets.
    fn new(frame: &[u8], slot: u32) -> Result<Entry, ChannelFault>
        ensures { MatchResult result
            (λ entry. (length frame.now ≤ 61) × (underway_of entry ≡ record { 0 = frame.now; 1 = slot }))
            (λ fault. (62 ≤ length frame.now) × (fault ≡ ChannelFault.Buffer)) }
    {
        let len = frame.len();
        if len > FRAME_ROOM {
            return Err(ChannelFault::Buffer);
        }
        let mut octets = [0; FRAME_ROOM];
        octets[..len].copy_from_slice(frame);
        Ok(Entry { octets, len, slot })
    }
}

/// The frames on one lane, oldest first.
#[derive(Drop)]
struct WireLane<'a> {
    frames: WaitingLine<'a, Entry>,
}

impl<'a> Model for WireLane<'a> {
    ghost use Rattle.channel.specs.Channels.{Underway};
    ghost use Rattle.channel.specs.WaitingLines.{Line};

    ghost Value = { Line Underway };

    ghost use Rattle.channel.specs.Wires.{seen};

    ghost view = { λ lane. seen lane.frames };
}

impl<'a> WireLane<'a> {
    ghost use Rattle.channel.specs.Wires.{room_of, cleared, underway_of};

    /// A lane with nothing underway, on the first 32 places of a room.
    fn new(room: &'a mut [Entry]) -> WireLane<'a>
        ensures { result ≡ empty (room_of (length room.old)) }
    {
        let places = room.len().min(LANE_PLACES);
        WireLane {
            frames: WaitingLine::new(&mut room[..places]),
        }
    }

    /// Puts a frame behind the others, or loses it if the lane is full.
    fn put(&mut self, entry: Entry)
        ensures { self.new ≡ pushed (underway_of entry) self.old }
    {
        let _ = self.frames.push(entry);
    }

    /// Writes the oldest frame at the front of a buffer. It is underway no more.
    fn take(&mut self, buffer: &mut [u8]) -> Option<Taken>
        requires { 61 ≤ length buffer.old }
        ensures taken { result ≡ answer (oldest self.old) }
        ensures buffer { buffer.new ≡ written (oldest self.old) buffer.old }
        ensures lane { self.new ≡ popped self.old }
    {
        let entry = self.frames.pop()?;
        Some(give(&entry.octets[..entry.len], entry.slot, buffer))
    }

    /// Drops the frames at the front that were put before the slot `since`.
    fn drop_older(&mut self, since: u32)
        ensures { self.new ≡ cleared since self.old }
    {
        while self.frames.first().is_some_and(|entry| entry.slot < since) {
            self.frames.pop();
        }
    }
}

/// The wire: on each lane up to 32 frames, which come out in the order of their puts, each once. It loses those that find their
/// lane full, and those that are older than the lane's delay.
#[derive(Drop)]
pub struct Wire<'a> {
    clock: u32,
    to_aircraft: WireLane<'a>,
    to_ground: WireLane<'a>,
}

// A contract sees the clock and the frames of each lane.
impl<'a> Model for Wire<'a> {
    ghost use Rattle.channel.specs.Wires.{WireState, InTime};

    ghost Value = { WireState };

    ghost view = { λ w. record { clock = w.clock; to_aircraft = w.to_aircraft; to_ground = w.to_ground } };

    ghost invariant = { λ w. InTime (record { clock = w.clock; to_aircraft = w.to_aircraft; to_ground = w.to_ground }) };
}

impl<'a> Wire<'a> {
    ghost use Rattle.channel.specs.Wires as wire;
    ghost use Rattle.channel.specs.Wires.{InTime};

    /// A wire at clock 0 with nothing underway. Each lane has the first 32 places of its room, or all if there are fewer.
    pub fn new(to_aircraft: &'a mut [Entry], to_ground: &'a mut [Entry]) -> Wire<'a>
        ensures wire { result ≡ wire.new (length to_aircraft.old) (length to_ground.old) }
        ensures in_time { InTime result }
    {
        Wire {
            clock: 0,
            to_aircraft: WireLane::new(to_aircraft),
            to_ground: WireLane::new(to_ground),
        }
    }
}

/// The delays of the wire.
#[derive(Clone, Copy)]
pub struct WireDelays;

impl Delays for WireDelays {
    const TO_AIRCRAFT_DELAY: u32 = 0;

    const TO_GROUND_DELAY: u32 = 1;

    ghost TO_AIRCRAFT_DELAY = { 0 };

    ghost TO_GROUND_DELAY = { 1 };
}

impl<'a> Channel for Wire<'a> {
    ghost use Rattle.channel.specs.Wires as wire;
    ghost use Rattle.channel.specs.Wires.{clock_of, carried, delay, InTime};

    type Delays = WireDelays;

    ghost clock = { clock_of };

    ghost underway = { carried };

    ghost slot_gives = { wire.Slots };

    ghost put_gives = { wire.Puts };

    ghost take_gives = { wire.Takes };

    ghost short_delays = { lit≤ tt };

    fn clock(&self) -> u32
        ensures channel { result ≡ self.now.clock }
    {
        self.clock
    }

    /// A slot drops the frames that are older than their lane's delay. They are at the front.
    fn slot(&mut self, slot: u32) -> Result<(), ChannelFault>
        ensures channel { Slots clock_of carried self.old slot result self.new }
        ensures gives { wire.Slots self.old slot result self.new }
        ensures in_time { InTime self.new }
    {
        if !(self.clock..=last_slot()).contains(&slot) {
            return Err(ChannelFault::Slot);
        }
        self.clock = slot;
        let since = slot.saturating_sub(WireDelays::of(Lane::ToAircraft));
        self.to_aircraft.drop_older(since);
        let since = slot.saturating_sub(WireDelays::of(Lane::ToGround));
        self.to_ground.drop_older(since);
        Ok(())
    }

    /// The frame goes behind the others of the lane, or is lost if the lane is full.
    fn put(&mut self, lane: Lane, frame: &[u8]) -> Result<(), ChannelFault>
        ensures channel { Puts clock_of carried self.old lane frame.now result self.new }
        ensures gives { wire.Puts self.old lane frame.now result self.new }
    {
        let entry = Entry::new(frame, self.clock)?;
        match lane {
            Lane::ToAircraft => self.to_aircraft.put(entry),
            Lane::ToGround => self.to_ground.put(entry),
        }
        Ok(())
    }

    /// Gives the lane's oldest frame, or `None` if there is none.
    fn take(&mut self, lane: Lane, buffer: &mut [u8]) -> Result<Option<Taken>, ChannelFault>
        ensures channel { Takes clock_of carried delay self.old lane buffer.old result self.new buffer.new }
        ensures gives { wire.Takes self.old lane buffer.old result self.new buffer.new }
    {
        if buffer.len() < FRAME_ROOM {
            return Err(ChannelFault::Buffer);
        }
        Ok(match lane {
            Lane::ToAircraft => self.to_aircraft.take(buffer),
            Lane::ToGround => self.to_ground.take(buffer),
        })
    }
}
