//! What a sending half asks of a packet, and makes of it.
ghost use Rattle.std.specs.Prelude.{◌≡◌, ◌+◌, ◌≤◌, length, replicate, nat_lt, slice_set};
ghost use Rattle.frame.specs.Packets.{part_at};
ghost use Rattle.rules.specs.declared.window.Standing.{Standing};
ghost use Rattle.sender.specs.Packets.{packet_of, octets_of, with_bdus, waits_in};
ghost use Rattle.rules.specs.Sending as rule;

use crate::packet::Packet;
use crate::row::put;
use crate::standing::Tenure;
use arrayvec::ArrayVec;
use frame::{BDU_ROOM, PACKET_BDUS, part};
use rules::Progress;

impl Packet {
    /// Room for a packet.
    pub(crate) fn new() -> Packet
        ensures { packet_of result ≡ rule.empty }
    {
        Packet {
            standing: Tenure::Free,
            octets: ArrayVec::new(),
            bdus: [Progress::Waiting; PACKET_BDUS],
        }
    }

    /// Takes a packet in a slot: it is pending, and its BDUs wait.
    pub(crate) fn fill(&mut self, packet: &[u8], slot: u32)
        requires { length packet.now ≤ 424 }
        ensures { packet_of self.new ≡ record {
          standing = Standing.Pending slot;
          octets = packet.now;
          bdus = replicate 8 Progress.Waiting;
        } }
    {
        self.octets.clear();
        // It has room, as is required.
        let _ = self.octets.try_extend_from_slice(packet);
        self.bdus = [Progress::Waiting; PACKET_BDUS];
        self.standing = Tenure::Pending { since: slot };
    }

    /// How many BDUs it has.
    fn count(&self) -> usize
        ensures { result ≡ rule.pieces (octets_of self.now) }
    {
        self.octets.len().div_ceil(BDU_ROOM)
    }

    /// Whether its BDU of this number waits.
    pub(crate) fn has_waiting(&self, bsn: u8) -> bool
        ensures { result ≡ waits_in bsn (packet_of self.now) }
    {
        let n = usize::from(bsn);
        self.standing.is_pending() && n < self.count() && matches!(self.bdus[n], Progress::Waiting)
    }

    /// Whether a BDU comes behind the one of this number.
    pub(crate) fn has_more(&self, bsn: u8) -> bool
        ensures { result ≡ nat_lt (bsn + 1) (rule.pieces (octets_of self.now)) }
    {
        usize::from(bsn) + 1 < self.count()
    }

    /// The octets of its BDU of this number, none behind the last.
    pub(crate) fn part(&self, bsn: u8) -> &[u8]
        ensures { result.now ≡ part_at (octets_of self.now) bsn }
    {
        let octets = self.octets.as_slice();
        part(octets, bsn).unwrap_or(&[])
    }

    /// A BDU goes on.
    pub(crate) fn advance(&mut self, bsn: u8, to: Progress)
        ensures { packet_of self.new ≡ with_bdus (slice_set self.old.bdus bsn to) (packet_of self.old) }
    {
        put(&mut self.bdus, usize::from(bsn), to);
    }

    /// Whether it is pending and, with its BDUs this far, all of them are acknowledged.
    pub(crate) fn is_whole_with(&self, bdus: &[Progress; PACKET_BDUS]) -> bool
        ensures { result ≡ rule.is_whole (with_bdus bdus.now (packet_of self.now)) }
    {
        self.standing.is_pending()
            && bdus
                .iter()
                .take(self.count())
                .all(|bdu| matches!(bdu, Progress::Acknowledged))
    }

    /// After a report: its reference number is free if it is pending and all its BDUs are acknowledged.
    pub(crate) fn close(&mut self)
        ensures { packet_of self.new ≡ rule.closed (packet_of self.old) }
    {
        if self.is_whole_with(&self.bdus) {
            self.standing = Tenure::Free;
        }
    }

    /// The slot begins.
    pub(crate) fn pass(&mut self, slot: u32)
        ensures { packet_of self.new ≡ rule.older slot (packet_of self.old) }
    {
        self.standing = self.standing.aged(slot);
    }
}
