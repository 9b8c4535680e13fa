//! Packets and BDUs by their keys, what a sending half knows of a number and of a packet, and spans of slots.
ghost use Rattle.std.specs.Prelude.{◌≡◌, ◌+◌, nat_le};
ghost use Rattle.rules.specs.Keys.{place};

use frame::BduHeader;

/// Which packet: the one with reference number `rn` under priority `q`.
#[derive(Clone, Copy)]
pub struct PacketKey {
    pub q: u8,
    pub rn: u8,
}

impl PacketKey {
    /// Its place, where the packets of a half are in one row.
    pub fn place(self) -> usize
        ensures { result ≡ place self }
    {
        4 * usize::from(self.q) + usize::from(self.rn)
    }
}

// Q and RN one by one: the laws of the rules name them so.
/// Which BDU: of the packet with reference number `rn` under priority `q`, the one of number `bsn`.
#[derive(Clone, Copy)]
pub struct BduKey {
    pub q: u8,
    pub rn: u8,
    pub bsn: u8,
}

impl BduKey {
    /// The packet that the BDU is of.
    pub fn packet(self) -> PacketKey
        ensures { result ≡ record { q = self.q; rn = self.rn } }
    {
        let BduKey { q, rn, .. } = self;
        PacketKey { q, rn }
    }
}

impl From<BduHeader> for BduKey {
    ghost from_gives = { λ header r. r ≡ record { q = header.q; rn = header.rn; bsn = header.bsn } };

    /// Which BDU a header is of.
    fn from(header: BduHeader) -> BduKey {
        BduKey {
            q: header.q,
            rn: header.rn,
            bsn: header.bsn,
        }
    }
}

/// A number of the window. One on its way has the slot of its sending and, unless its packet expired, its BDU.
#[derive(Clone, Copy)]
pub enum Mark {
    Unused,
    OnItsWay { slot: u32, bdu: Option<BduKey> },
    Acknowledged,
    Returned,
}

/// How far a BDU of a pending packet is.
#[derive(Clone, Copy)]
pub enum Progress {
    Waiting,
    OnItsWay,
    Acknowledged,
}

// A word of the rules alone: the sending half keeps the slot of the accept, since one that is 149 later may not fit 32 bits.
/// How a reference number stands: free, given to a packet that was accepted in a slot, or resting until a slot.
#[derive(Clone, Copy)]
pub enum Standing {
    Free,
    Pending { since: u32 },
    Resting { until: u32 },
}

/// Whether a span of slots that began in the slot `since` is over in a slot.
pub fn has_passed(since: u32, span: u32, slot: u32) -> bool
    ensures { result ≡ nat_le (since + span) slot }
{
    u64::from(since) + u64::from(span) <= u64::from(slot)
}
