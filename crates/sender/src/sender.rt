//! The sending half.
ghost use Rattle.std.specs.Prelude.{◌≡◌, ◌<◌, MatchOption};
ghost use Rattle.rules.specs.Kept.{Kept};
ghost use Rattle.sender.specs.Senders.{payload_of, sent_by, flagged, hearing_of, Accepts, Chooses, Sendable, Foretells, Hears, ShowsMarks};
ghost use Rattle.sender.specs.Sets.{places_in};
ghost use Rattle.rules.specs.Choice.{Chosen};
ghost use Rattle.rules.specs.Ends as end;
ghost use Rattle.rules.specs.Sending as rule;

use crate::choice::{Pause, ToSend};
use crate::hearing::Hearing;
use crate::packets::Packets;
use crate::set::PacketSet;
use crate::window::Window;
use frame::{BduHeader, Direction, Number, PACKET_ROOM};
use rules::{BduKey, EndFault, Mark, PacketKey, Progress, Report, Shown, frames_a_slot};
use std::marker::Model;

/// The sending half of a direction: A, the oldest number not acknowledged, the window of A to A+8, the packets, that of Q
/// and RN at 4 times Q and RN, and the reference number last given under each Q.
#[derive(Drop)]
pub struct Sender<D: Direction> {
    oldest: D::Number,
    window: Window,
    packets: Packets,
    // By Q, beside packets by Q and RN: the rules see them so, and every slot call goes over all packets in one row.
    last: [u8; 4],
}

impl<D: Direction> Model for Sender<D> {
    ghost use Rattle.rules.specs.Halves.{Half};
    ghost use Rattle.rules.specs.Sending.{Sending};

    ghost Value = { Half Sending D.Number };

    ghost view = { λ half. record {
      holds = record { oldest = D.Number.Number.value half.oldest; window = half.window; packets = half.packets; last = half.last };
      oldest = half.oldest;
    } };
}

impl<D: Direction> Sender<D> {
    /// A half that was not used yet.
    pub fn new() -> Sender<D>
        ensures { result.holds ≡ rule.new }
    {
        Sender {
            oldest: D::Number::from_octet(0),
            window: Window::new(),
            packets: Packets::new(),
            last: [3; 4],
        }
    }

    /// The reference number `k` + 1 steps after the one last given under the priority, going round.
    fn rn_after(&self, q: u8, k: u8) -> u8
        ensures { result ≡ rule.turn self.now.holds q k }
    {
        let last = self.last.get(usize::from(q)).copied().unwrap_or(0);
        last.wrapping_add(1).wrapping_add(k) % 4
    }

    /// The first free reference number of a priority, from the one behind the last given on.
    fn free_rn(&self, q: u8) -> Option<u8>
        ensures { MatchOption result
            (rule.passed self.now.holds q ≡ 4)
            (λ rn. (rule.passed self.now.holds q < 4)
            × (rn ≡ rule.turn self.now.holds q (rule.passed self.now.holds q))) }
    {
        (0..4)
            .map(|k| self.rn_after(q, k))
            .find(|rn| self.packets.is_free(PacketKey { q, rn: *rn }))
    }

    /// Accepts a packet under a priority in a slot, and answers its reference number. It is refused as `Packet` if it has
    /// no or over 424 octets or the priority is above 3, and as `NoReference` if no reference number is free.
    pub fn accept(&mut self, q: u8, octets: &[u8], slot: u32) -> Result<u8, EndFault>
        ensures rule { Accepts q octets.now slot
            self.old.holds result self.new.holds }
        ensures kept { Kept result self.old self.new }
    {
        if octets.is_empty() || octets.len() > PACKET_ROOM || q > 3 {
            return Err(EndFault::Packet);
        }
        let rn = self.free_rn(q).ok_or(EndFault::NoReference)?;
        self.packets.fill(PacketKey { q, rn }, octets, slot);
        self.last[usize::from(q)] = rn;
        Ok(rn)
    }

    /// The BDU to send.
    fn next(&self) -> Option<BduKey>
        ensures { Chosen self.now.holds result }
    {
        self.packets.best()
    }

    /// What is sent next, after `count` data frames of this slot; nothing changes.
    pub fn choose(&self, count: u8) -> Result<ToSend<D::Number>, Pause>
        ensures rule { Chooses D.Number.Number count self.now.holds result }
        ensures fits { Sendable self.now.holds result }
    {
        let bdu = self.next().ok_or(Pause::Idle)?;
        if count >= frames_a_slot() {
            return Err(Pause::Full);
        }
        // Not `ok_or(..)?`: tried, and what is answered then did not prove.
        let Some(entry) = self.window.first_open() else {
            return Err(Pause::Shut);
        };
        Ok(ToSend {
            // A place of nine fits.
            number: self.oldest.advance(entry as u8),
            header: self.packets.header(bdu),
            entry,
        })
    }

    /// The octets of the BDU of a header, as a part of its packet; none where there is no such BDU.
    pub fn payload(&self, header: BduHeader) -> &[u8]
        ensures { result.now ≡ payload_of self.now.holds header }
    {
        self.packets.part(BduKey::from(header))
    }

    /// What was chosen is sent in a slot: its number is on its way with its BDU.
    pub fn send(&mut self, chosen: ToSend<D::Number>, slot: u32)
        ensures { self.new.holds ≡ sent_by chosen slot self.old.holds }
    {
        let bdu = BduKey::from(chosen.header);
        let mark = Mark::OnItsWay {
            slot,
            bdu: Some(bdu),
        };
        self.window.set(chosen.entry, mark);
        self.packets.go_on(bdu, Progress::OnItsWay);
    }

    /// A report as it bears on the window.
    fn hearing(&self, report: Report<D::Number>, slot: u32) -> Hearing
        ensures { result ≡ hearing_of (D.Number.Number.value report.oldest) report.flags.octet slot self.now.holds }
    {
        Hearing {
            gap: self.oldest.distance(report.oldest),
            flags: report.flags.marks(),
            slot,
        }
    }

    /// Which packets a report in a slot would confirm; nothing changes. It is refused as `Number` if it acknowledges a
    /// number that is unused, returned or outside the window.
    pub fn foretell(&self, report: Report<D::Number>, slot: u32) -> Result<PacketSet, EndFault>
        ensures { Foretells (D.Number.Number.value report.oldest) (flagged report.flags.octet) slot
            self.now.holds result }
    {
        let told = self.hearing(report, slot);
        told.outcome(&self.window, &self.packets)
    }

    /// Takes a report in a slot, and answers which packets it confirms: exactly what was foretold of it. A refused one changes
    /// nothing.
    pub fn hear(&mut self, report: Report<D::Number>, slot: u32) -> Result<PacketSet, EndFault>
        ensures answer { Foretells (D.Number.Number.value report.oldest) (flagged report.flags.octet) slot
            self.old.holds result }
        ensures rule { Hears (D.Number.Number.value report.oldest) (flagged report.flags.octet) slot
            self.old.holds result self.new.holds }
        ensures kept { Kept result self.old self.new }
    {
        let hearing = self.hearing(report, slot);
        let confirmed = hearing.outcome(&self.window, &self.packets)?;
        self.packets.settle(&hearing, &self.window);
        self.window.judge(&hearing);
        let by = self.window.lead();
        self.window.shift(by);
        // At most nine fits.
        self.oldest = self.oldest.advance(by as u8);
        Ok(confirmed)
    }

    /// The packets that a slot call of this slot would have expire; nothing changes.
    pub fn expiring(&self, slot: u32) -> PacketSet
        ensures { places_in result ≡ rule.expired slot self.now.holds }
    {
        self.packets.held(|standing| standing.is_late(slot))
    }

    /// The slot begins: packets that were accepted 74 slots ago or more expire, which are answered, and their numbers on
    /// their way lose their BDUs; reference numbers that have rested are free.
    pub fn slot(&mut self, slot: u32) -> PacketSet
        ensures expired { places_in result ≡ rule.expired slot self.old.holds }
        ensures rule { self.new.holds ≡ rule.slotted slot self.old.holds }
    {
        let expired = self.expiring(slot);
        self.window.leave(&self.packets, slot);
        self.packets.pass_all(slot);
        expired
    }

    /// The packets that are pending.
    pub fn pending(&self) -> PacketSet
        ensures { places_in result ≡ end.pending self.now.holds }
    {
        self.packets.held(|standing| standing.is_pending())
    }

    /// What the half shows: A, and which of A+1 to A+8 are acknowledged.
    pub fn shows(&self) -> Shown<D::Number>
        ensures shows { ShowsMarks self.now.holds (D.Number.Number.value result.oldest) result.done }
        ensures stored { result.oldest ≡ self.now.oldest }
    {
        Shown {
            oldest: self.oldest,
            done: self.window.acknowledged(),
        }
    }
}
