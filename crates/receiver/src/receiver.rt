//! The receiving half.
ghost use Rattle.std.specs.Prelude.{◌≡◌, ◌+◌, ◌≤◌, true, false, map, get_or};
ghost use Rattle.receiver.specs.Places.{bdu_of};
ghost use Rattle.rules.specs.Kept.{Kept};
ghost use Rattle.receiver.specs.Receivers.{Takes, Says, ShowsFlags};
ghost use Rattle.rules.specs.Receiving as rule;
ghost use Rattle.std.specs.List.{range_with_len};

use crate::place::Place;
use frame::{Bdu, BduHeader, Direction, Flags, HALF_PACKETS, Number, PACKET_ROOM};
use rules::{EndFault, PacketKey, Report, Shown};
use std::array;
use std::marker::Model;

/// The receiving half of a direction: R, the oldest number not received, the flags of R+1 to R+8, and the places, that of Q
/// and RN at 4 times Q and RN.
#[derive(Drop)]
pub struct Receiver<D: Direction> {
    oldest: D::Number,
    flags: [bool; 8],
    places: [Place; HALF_PACKETS],
}

// A contract sees a half as the rules do: R as a number, and of each place what is held; and beside it R as it is stored.
impl<D: Direction> Model for Receiver<D> {
    ghost use Rattle.rules.specs.Halves.{Half};
    ghost use Rattle.rules.specs.Receiving.{Receiving};

    ghost Value = { Half Receiving D.Number };

    ghost use Rattle.std.specs.Prelude.{◌≡◌, length, map};
    ghost use Rattle.receiver.specs.Places.{place_of};

    ghost view = { λ half. record {
      holds = record { oldest = D.Number.Number.value half.oldest; flags = half.flags; places = map place_of half.places };
      oldest = half.oldest;
    } };

    ghost invariant = { λ half. length half.places ≡ 16 };
}

/// A packet that a BDU made whole: which it is, and its length, at the front of the buffer.
#[derive(Clone, Copy)]
pub struct HandUp {
    pub packet: PacketKey,
    pub len: usize,
}

impl<D: Direction> Receiver<D> {
    /// A half to which nothing came.
    pub fn new() -> Receiver<D>
        ensures { result.holds ≡ rule.new }
    {
        Receiver {
            oldest: D::Number::from_octet(0),
            flags: [false; 8],
            places: array::from_fn(|_| Place::new()),
        }
    }

    /// Whether a number is among R to R+8 and not received.
    fn awaits(&self, number: D::Number) -> bool
        ensures { result ≡ rule.awaited self.now.holds (D.Number.Number.value number) }
    {
        let k = usize::from(self.oldest.distance(number));
        k == 0 || k <= 8 && !self.flags[k - 1]
    }

    /// How many numbers behind R are received with no gap.
    fn in_front(&self) -> usize
        ensures count { result ≡ rule.front self.now.holds.flags }
        ensures most { result ≤ 8 }
    {
        self.flags.iter().take_while(|flag| **flag).count()
    }

    /// The flags behind the first `by`, and unset ones behind them.
    fn shifted(&self, by: usize) -> [bool; 8]
        requires { by ≤ 9 }
        ensures { result ≡ map (λ i. get_or self.now.holds.flags (by + i) false) (range_with_len 0 8) }
    {
        let flags = &self.flags;
        array::from_fn(|i| flags.get(by + i).copied().unwrap_or(false))
    }

    /// Counts an awaited number as received, and moves R past all received numbers.
    fn receive(&mut self, number: D::Number)
        requires { rule.awaited self.old.holds (D.Number.Number.value number) ≡ true }
        ensures { self.new.holds ≡ rule.received (D.Number.Number.value number)
            self.old.holds }
    {
        let k = usize::from(self.oldest.distance(number));
        if k > 0 {
            self.flags[k - 1] = true;
            return;
        }
        let n = self.in_front();
        self.flags = self.shifted(n + 1);
        // At most eight fits.
        self.oldest = self.oldest.advance(n as u8 + 1);
    }

    /// Takes a BDU that came under a number in a slot. It is refused as `Buffer` if the buffer has fewer than 424 octets, as
    /// `Number` if the number is not awaited, and as `Contradiction` if the BDU contradicts its place. If it makes its packet
    /// whole, the packet is written at the front of the buffer and handed up; else the BDU is held, the answer is `None`, and
    /// the buffer stays as it is.
    pub fn take(
        &mut self,
        number: D::Number,
        bdu: Bdu<'_>,
        slot: u32,
        buffer: &mut [u8],
    ) -> Result<Option<HandUp>, EndFault>
        ensures rule { Takes self.old.holds (D.Number.Number.value number)
            (bdu_of bdu.entry) slot buffer.old result
            self.new.holds buffer.new }
        ensures kept { Kept result self.old self.new }
    {
        if buffer.len() < PACKET_ROOM {
            return Err(EndFault::Buffer);
        }
        if !self.awaits(number) {
            return Err(EndFault::Number);
        }
        let BduHeader { q, rn, .. } = bdu.header;
        let packet = PacketKey { q, rn };
        let at = packet.place();
        if self.places[at].contradicts(bdu) {
            return Err(EndFault::Contradiction);
        }
        self.receive(number);
        let place = &mut self.places[at];
        place.add(bdu, slot);
        Ok(place.hand_up(buffer).map(|len| HandUp { packet, len }))
    }

    /// The slot begins: places that were opened 75 slots ago or more are emptied.
    pub fn slot(&mut self, slot: u32)
        ensures { self.new.holds ≡ rule.slot slot self.old.holds }
    {
        for place in &mut self.places {
            place.age(slot);
        }
    }

    /// What a report says now.
    pub fn report(&self) -> Report<D::Number>
        ensures says { Says self.now.holds (D.Number.Number.value result.oldest) result.flags.octet }
        ensures stored { result.oldest ≡ self.now.oldest }
    {
        Report {
            oldest: self.oldest,
            flags: Flags::from(self.flags),
        }
    }

    /// What the half shows: R, and which of R+1 to R+8 are received.
    pub fn shows(&self) -> Shown<D::Number>
        ensures shows { ShowsFlags self.now.holds (D.Number.Number.value result.oldest) result.done }
        ensures stored { result.oldest ≡ self.now.oldest }
    {
        Shown {
            oldest: self.oldest,
            done: self.flags,
        }
    }
}
