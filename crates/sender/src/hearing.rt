//! What a report makes of the numbers and packets of a sending half.
ghost use Rattle.std.specs.Prelude.{◌≡◌, not, ◌&&◌};
ghost use Rattle.sender.specs.Hearings.{tells as told_by, step, credit_of, verdict};
ghost use Rattle.sender.specs.Senders.{refused_of, Outcome};
ghost use Rattle.sender.specs.Windows.{mark_in};
ghost use Rattle.rules.specs.Sending.{was_sent, is_old};

use crate::mark::{Verdict, is_old, judge, was_sent};
use crate::packets::Packets;
use crate::row::put;
use crate::set::PacketSet;
use crate::window::{WINDOW, Window};
use frame::PACKET_BDUS;
use rules::{BduKey, EndFault, Mark, Progress};

/// A report as it bears on a window: how far its R lies ahead of the oldest number there, its flags, and the slot in which
/// it came.
// It does not hold the window: the window is asked by it first, and changed by it then.
#[derive(Clone, Copy)]
pub(crate) struct Hearing {
    pub gap: u8,
    pub flags: [bool; 8],
    pub slot: u32,
}

impl Hearing {
    /// Whether the report acknowledges the number at a place of the window, or behind it.
    fn tells(&self, k: usize) -> bool
        ensures { result ≡ told_by self.now k }
    {
        let gap = usize::from(self.gap);
        k < gap || k > gap && self.flags.get(k - gap - 1).copied().unwrap_or(false)
    }

    /// What the report makes of the number at a place of the window.
    pub(crate) fn verdict(&self, k: usize, mark: Mark) -> Verdict
        ensures { result ≡ verdict mark (told_by self.now k) (is_old self.now.slot mark) }
    {
        judge(mark, self.tells(k), is_old(mark, self.slot))
    }

    /// Whether the report acknowledges a number that is not out.
    fn is_astray(&self, window: &Window, k: usize) -> bool
        ensures { result ≡ told_by self.now k && not (was_sent (mark_in window.now k)) }
    {
        self.tells(k) && !was_sent(window.mark(k))
    }

    /// Whether the report is refused.
    fn is_refused(&self, window: &Window) -> bool
        ensures { result ≡ refused_of self.now window.now }
    {
        usize::from(self.gap) > WINDOW || (0..2 * WINDOW).any(|k| self.is_astray(window, k))
    }

    /// How far the BDUs of the packet at a place are after the report.
    pub(crate) fn credited(
        &self,
        window: &Window,
        place: usize,
        bdus: [Progress; PACKET_BDUS],
    ) -> [Progress; PACKET_BDUS]
        ensures { result ≡ credit_of place (told_by self.now) self.now.slot window.now bdus }
    {
        let mut after = bdus;
        for (k, mark) in window.as_slice().iter().enumerate() {
            apply(&mut after, place, self.verdict(k, *mark).moved);
        }
        after
    }

    /// Whether the report is refused, and which packets it confirms.
    pub(crate) fn outcome(&self, window: &Window, packets: &Packets) -> Result<PacketSet, EndFault>
        ensures { Outcome self.now window.now packets.now result }
    {
        if self.is_refused(window) {
            return Err(EndFault::Number);
        }
        Ok(packets.confirmed(self, window))
    }
}

/// The BDU that moves on does, if it is one of the packet at a place.
fn apply(bdus: &mut [Progress; PACKET_BDUS], place: usize, moved: Option<(BduKey, Progress)>)
    ensures { bdus.new ≡ step place moved bdus.old }
{
    if let Some((bdu, to)) = moved
        && bdu.packet().place() == place
    {
        put(bdus, usize::from(bdu.bsn), to);
    }
}
