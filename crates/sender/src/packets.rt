//! The packets of a sending half, and which BDU of them goes next.
ghost use Rattle.std.specs.Prelude.{◌≡◌, ◌+◌, ◌<◌, ◌≤◌, Bool, MatchOption, map, length, replicate, nat_lt, slice_set};
ghost use Rattle.rules.specs.Keys.{place};
ghost use Rattle.rules.specs.Choice.{nth, waiting, since, chosen, Chosen};
ghost use Rattle.rules.specs.Sending as rule;
ghost use Rattle.rules.specs.declared.window.Standing.{Standing};
ghost use Rattle.sender.specs.Hearings.{tells, moved_on};
ghost use Rattle.sender.specs.Packets.{packet_of, packet_in};
ghost use Rattle.sender.specs.Standings.{standing_of};

use crate::hearing::Hearing;
use crate::packet::Packet;
use crate::set::PacketSet;
use crate::standing::Tenure;
use crate::window::Window;
use frame::{BduHeader, HALF_PACKETS};
use rules::{BduKey, PacketKey, Progress};
use std::array;
use std::cmp::Reverse;
use std::marker::Model;

/// The packets of a sending half, each at the place of its priority and reference number.
#[derive(Drop)]
pub(crate) struct Packets {
    all: [Packet; HALF_PACKETS],
}

impl Model for Packets {
    ghost use Rattle.std.specs.Prelude.{◌≡◌, List, length, map};
    ghost use Rattle.rules.specs.Sending.{Outgoing};

    ghost Value = { List Outgoing };

    ghost use Rattle.sender.specs.Packets.{packet_of};

    ghost view = { λ packets. map packet_of packets.all };

    ghost invariant = { λ packets. length packets.all ≡ 16 };
}

impl Packets {
    /// Room for all packets.
    pub(crate) fn new() -> Packets
        ensures { result ≡ replicate 16 rule.empty }
    {
        Packets {
            all: array::from_fn(|_| Packet::new()),
        }
    }

    /// The packet of a key.
    fn get(&self, key: PacketKey) -> Option<&Packet>
        ensures { MatchOption result
            (packet_in self.now (place key) ≡ rule.blank)
            (λ p. packet_of p.now ≡ packet_in self.now (place key)) }
    {
        self.all.get(key.place())
    }

    /// Whether no packet holds a reference number of a priority.
    pub(crate) fn is_free(&self, key: PacketKey) -> bool
        ensures { result ≡ rule.is_free (packet_in self.now (place key)).standing }
    {
        self.get(key).is_none_or(|packet| packet.standing.is_free())
    }

    /// Takes a packet under a priority and a reference number in a slot.
    pub(crate) fn fill(&mut self, key: PacketKey, octets: &[u8], slot: u32)
        requires priority { key.q < 4 }
        requires reference { key.rn < 4 }
        requires fits { length octets.now ≤ 424 }
        ensures { self.new ≡ slice_set self.old (place key) (record {
          standing = Standing.Pending slot;
          octets = octets.now;
          bdus = replicate 8 Progress.Waiting;
        }) }
    {
        self.all[key.place()].fill(octets, slot);
    }

    /// Whether a BDU waits.
    fn waits(&self, bdu: BduKey) -> bool
        ensures { result ≡ waiting self.now bdu }
    {
        self.get(bdu.packet())
            .is_some_and(|packet| packet.has_waiting(bdu.bsn))
    }

    /// The slot in which a BDU's packet was accepted.
    fn since(&self, bdu: BduKey) -> u32
        ensures { result ≡ since self.now bdu }
    {
        self.get(bdu.packet())
            .map_or(0, |packet| packet.standing.accepted_in())
    }

    /// Whether the packet of a BDU expires in the slot.
    pub(crate) fn expires(&self, bdu: BduKey, slot: u32) -> bool
        ensures { result ≡ rule.is_late slot (packet_in self.now (rule.place bdu)).standing }
    {
        self.get(bdu.packet())
            .is_some_and(|packet| packet.standing.is_late(slot))
    }

    /// The BDU to send: of those that wait the one of the highest Q, then of the earliest accept, then of the smallest RN and
    /// BSN.
    pub(crate) fn best(&self) -> Option<BduKey>
        ensures next { (S : rule.Sending) → S.packets ≡ self.now → Chosen S result }
        ensures row { result ≡ chosen self.now 128 }
    {
        (0..128)
            .map(bdu_at)
            .filter(|bdu| self.waits(*bdu))
            .min_by_key(|bdu| (Reverse(bdu.q), self.since(*bdu), bdu.rn, bdu.bsn))
    }

    /// The header of a BDU.
    // `long` is what the capacity of the vector says; a caller sees only its octets.
    pub(crate) fn header(&self, bdu: BduKey) -> BduHeader
        ensures header { result ≡ record {
          rn = bdu.rn;
          q = bdu.q;
          more = nat_lt (bdu.bsn + 1) (rule.pieces (packet_in self.now (rule.place bdu)).octets);
          bsn = bdu.bsn;
        } }
        ensures long { length (packet_in self.now (rule.place bdu)).octets ≤ 424 }
    {
        BduHeader {
            rn: bdu.rn,
            q: bdu.q,
            more: self
                .get(bdu.packet())
                .is_some_and(|packet| packet.has_more(bdu.bsn)),
            bsn: bdu.bsn,
        }
    }

    /// The octets of a BDU, as a part of its packet; none where there is no such BDU.
    pub(crate) fn part(&self, bdu: BduKey) -> &[u8]
        ensures { result.now ≡ rule.piece (packet_in self.now (rule.place bdu)).octets bdu.bsn }
    {
        self.get(bdu.packet())
            .map_or(&[], |packet| packet.part(bdu.bsn))
    }

    /// The BDU goes on; where there is no packet for it nothing happens.
    pub(crate) fn go_on(&mut self, bdu: BduKey, to: Progress)
        ensures { self.new ≡ rule.moved bdu to self.old }
    {
        // By its place: what `get_mut` leaves of the other packets is not known afterwards.
        let p = bdu.packet().place();
        if p < self.all.len() {
            self.all[p].advance(bdu.bsn, to);
        }
    }

    /// The packets whose reference numbers are held as asked.
    pub(crate) fn held<F: Fn(Tenure) -> bool>(&self, asked: F) -> PacketSet
        requires { F.IsAlwaysCallable asked }
        ensures { (test : Standing → Bool) → ((t : Tenure) (r : Bool) → F.post asked t r → r ≡ test (standing_of t))
            → result.marks ≡ map (λ o. test o.standing) self.now }
    {
        // Not `each_ref` and `map`: tried, and a slot call took two and a half times as long.
        let mut marks = [false; HALF_PACKETS];
        for (p, packet) in self.all.iter().enumerate() {
            marks[p] = asked(packet.standing);
        }
        PacketSet { marks }
    }

    /// Which packets a report confirms.
    pub(crate) fn confirmed(&self, report: &Hearing, window: &Window) -> PacketSet
        ensures { result.marks ≡ map rule.is_whole (rule.credit (tells report.now) report.now.slot window.now self.now) }
    {
        // A loop: tried with `from_fn`, and the proof did not close, since it did not know there how many packets the model has.
        let mut marks = [false; HALF_PACKETS];
        for (p, packet) in self.all.iter().enumerate() {
            marks[p] = packet.is_whole_with(&report.credited(window, p, packet.bdus));
        }
        PacketSet { marks }
    }

    /// The BDU that moves on does, if there is one.
    fn move_on(&mut self, moved: Option<(BduKey, Progress)>)
        ensures { self.new ≡ moved_on moved self.old }
    {
        if let Some((bdu, to)) = moved {
            self.go_on(bdu, to);
        }
    }

    /// Moves the BDUs of all packets on by a report.
    // Number by number, as the rules do: by packet, as `confirmed` must, each number would be judged sixteen times.
    fn credit(&mut self, report: &Hearing, window: &Window)
        ensures { self.new ≡ rule.credit (tells report.now) report.now.slot window.now self.old }
    {
        for (k, mark) in window.as_slice().iter().enumerate() {
            self.move_on(report.verdict(k, *mark).moved);
        }
    }

    /// Moves the BDUs of all packets on by a report, and frees the reference numbers of those that it confirms.
    pub(crate) fn settle(&mut self, report: &Hearing, window: &Window)
        ensures { self.new ≡ map rule.closed (rule.credit (tells report.now) report.now.slot window.now self.old) }
    {
        self.credit(report, window);
        self.close_all();
    }

    /// Frees the reference numbers of the pending packets of which all BDUs are acknowledged.
    fn close_all(&mut self)
        ensures { self.new ≡ map rule.closed self.old }
    {
        for packet in &mut self.all {
            packet.close();
        }
    }

    /// All packets grow older.
    pub(crate) fn pass_all(&mut self, slot: u32)
        ensures { self.new ≡ map (rule.older slot) self.old }
    {
        for packet in &mut self.all {
            packet.pass(slot);
        }
    }
}

/// The BDU at a place of the row of all: by Q, then RN, then BSN.
fn bdu_at(x: u8) -> BduKey
    ensures { result ≡ nth x }
{
    BduKey {
        q: x / 32,
        rn: x / 8 % 4,
        bsn: x % 8,
    }
}
