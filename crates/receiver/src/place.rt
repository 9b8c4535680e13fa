//! The place of one Q and RN in a receiving half, with room for each of its BDUs.
ghost use Rattle.std.specs.Prelude.{◌≡◌, ◌≤◌, ◌++◌, length, take, drop, is_some, None};
ghost use Rattle.receiver.specs.Places.{piece_of, place_of, bdu_of, joined, Whole, Emptied};
ghost use Rattle.rules.specs.Receiving as rule;

use arrayvec::ArrayVec;
use frame::{BDU_ROOM, Bdu, PACKET_BDUS};
use rules::{has_passed, hold};
use std::array;

/// The place of one Q and RN: the slot of its opening, the BSN of the last BDU once that is held, and the octets of each
/// BDU that is held, by its BSN.
#[derive(Drop)]
pub(crate) struct Place {
    opened: u32,
    last: Option<u8>,
    pieces: [Option<ArrayVec<u8, BDU_ROOM>>; PACKET_BDUS],
}

impl Place {
    /// A place that holds nothing.
    pub(crate) fn new() -> Place
        ensures { place_of result ≡ rule.empty }
    {
        Place {
            opened: 0,
            last: None,
            pieces: array::from_fn(|_| None),
        }
    }

    /// Whether a BDU is held of BSN `from` or more.
    fn any_from(&self, from: usize) -> bool
        ensures { result ≡ rule.any (drop from (place_of self.now).pieces) }
    {
        self.pieces.iter().skip(from).any(Option::is_some)
    }

    /// Whether the first `count` BDUs are all held.
    fn all_to(&self, count: usize) -> bool
        ensures { result ≡ is_some (rule.gathered (take count (place_of self.now).pieces)) }
    {
        self.pieces.iter().take(count).all(Option::is_some)
    }

    /// Whether the last BDU is held and this one would lie behind it or be a last one again.
    fn is_past_last(&self, bdu: Bdu<'_>) -> bool
        ensures { result ≡ rule.past_last self.now.last (bdu_of bdu.entry) }
    {
        let header = bdu.header;
        self.last
            .is_some_and(|last| last < header.bsn || !header.more)
    }

    /// Whether a BDU cannot be of one packet with what is held.
    pub(crate) fn contradicts(&self, bdu: Bdu<'_>) -> bool
        ensures { result ≡ rule.contradicts (place_of self.now) (bdu_of bdu.entry) }
    {
        let bsn = usize::from(bdu.header.bsn);
        self.pieces[bsn].is_some()
            || self.is_past_last(bdu)
            || !bdu.header.more && self.any_from(bsn + 1)
    }

    /// Takes a BDU; the first one opens the place.
    pub(crate) fn add(&mut self, bdu: Bdu<'_>, slot: u32)
        ensures { place_of self.new ≡ rule.added (place_of self.old) (bdu_of bdu.entry) slot }
    {
        let header = bdu.header;
        if !self.any_from(0) {
            self.opened = slot;
        }
        if !header.more {
            self.last = Some(header.bsn);
        }
        // A BDU always fits, so this is never `None`.
        self.pieces[usize::from(header.bsn)] = ArrayVec::try_from(bdu.payload).ok();
    }

    /// Empties the place.
    // Where it lies: a place made anew is half a kilobyte to write, and from slot 75 on an idle half empties all its places in
    // every slot.
    fn clear(&mut self)
        ensures { place_of self.new ≡ rule.empty }
    {
        self.opened = 0;
        self.last = None;
        for piece in &mut self.pieces {
            forget(piece);
        }
    }

    /// Writes what is held of the first `count` BDUs, one behind the other, at the front of the packet, and answers how
    /// many octets these are.
    fn gather(&self, count: usize, packet: &mut [u8]) -> usize
        requires { 424 ≤ length packet.old }
        ensures len { result ≡ length (joined (take count (place_of self.now).pieces)) }
        ensures packet { packet.new ≡ joined (take count (place_of self.now).pieces) ++ drop result packet.old }
    {
        let mut len = 0;
        for part in self.pieces.iter().take(count).flatten() {
            let end = len + part.len();
            packet[len..end].copy_from_slice(part);
            len = end;
        }
        len
    }

    /// Hands the packet up at the front of a buffer, if all BDUs up to the last are held, answers its length, and is empty
    /// then. Else nothing changes.
    pub(crate) fn hand_up(&mut self, buffer: &mut [u8]) -> Option<usize>
        requires { 424 ≤ length buffer.old }
        ensures packet { Whole (rule.packet (place_of self.old)) buffer.old result buffer.new }
        ensures place { Emptied result (place_of self.old) (place_of self.new) }
    {
        let count = usize::from(self.last?) + 1;
        if !self.all_to(count) {
            return None;
        }
        let len = self.gather(count, buffer);
        self.clear();
        Some(len)
    }

    /// Empties a place that was opened 75 slots ago or more.
    pub(crate) fn age(&mut self, slot: u32)
        ensures { place_of self.new ≡ rule.aged slot (place_of self.old) }
    {
        if has_passed(self.opened, hold(), slot) {
            self.clear();
        }
    }
}

/// The room for a BDU holds none from now on.
fn forget(piece: &mut Option<ArrayVec<u8, BDU_ROOM>>)
    ensures { piece_of piece.new ≡ None }
{
    // Only where one is held, since the whole room is written.
    if piece.is_some() {
        *piece = None;
    }
}
