//! Reading a frame.
ghost use Rattle.std.specs.Prelude.{◌≡◌, MatchOption};
ghost use Rattle.frame.specs.Beginnings.{FirstWrong, OnePlace};
ghost use Rattle.frame.specs.Directions.{kind_octet, way_of, octet_of, way_of_kind};
ghost use Rattle.frame.specs.Frames.{kind_at, Read, Readable, Rewritten};

use crate::bdu::Bdu;
use crate::fault::FrameFault;
use crate::flags::Flags;
use crate::header::BduHeader;
use crate::kind::Kind;
use crate::logon::LogOn;
use crate::number::{DownlinkNumber, FrameNumber, Number, UplinkNumber};
use crate::sizes::FRAME_ROOM;

/// What a frame says. The number tells the direction.
#[derive(Clone, Copy)]
pub enum Frame<'a> {
    /// A data frame with its BDU, whose octets are a part of the frame's.
    Data {
        log_on: LogOn,
        number: FrameNumber,
        bdu: Bdu<'a>,
    },
    /// A report: the oldest number not received, and the flags of the eight behind it.
    Report {
        log_on: LogOn,
        oldest: FrameNumber,
        flags: Flags,
    },
}

/// The place of the first octet of a frame of a kind that is wrong, missing or too many; none where the frame can be read.
#[tactic(auto, using(crate::proofs::Misfits::misfits))]
fn first_wrong(frame: &[u8], kind: Kind) -> Option<usize>
    requires { kind_octet kind ≡ kind_at frame.now }
    ensures { MatchOption result (Readable frame.now) (λ place. FirstWrong Readable frame.now place) }
{
    let len = frame.len();
    let octet_at = |place: usize| frame.get(place).copied().unwrap_or(0);
    let aircraft = octet_at(1);
    // As `LogOn::new` tests it: one function for both was tried, and the proof did not close here.
    if aircraft < 1 || aircraft > 254 {
        return Some(1);
    }
    if len < 8 {
        return Some(len);
    }
    if matches!(kind, Kind::UplinkReport | Kind::DownlinkReport) {
        return if len > 8 { Some(8) } else { None };
    }
    let header = BduHeader::from(octet_at(7));
    if header.more && header.bsn == 7 {
        return Some(7);
    }
    if len < 9 || (header.more && len < FRAME_ROOM) {
        return Some(len);
    }
    if len > FRAME_ROOM {
        Some(FRAME_ROOM)
    } else {
        None
    }
}

/// The number that a readable frame of a kind shows.
fn number_of(kind: Kind, octet: u8) -> FrameNumber
    ensures { (way_of result ≡ way_of_kind kind) × (octet_of result ≡ octet) }
{
    match kind {
        Kind::UplinkData | Kind::UplinkReport => FrameNumber::Uplink(UplinkNumber::from_octet(
            octet,
        )),
        Kind::DownlinkData | Kind::DownlinkReport => FrameNumber::Downlink(
            DownlinkNumber::from_octet(octet),
        ),
    }
}

/// Reads a frame. Every list of octets has one answer: what the frame says, or the place of the first octet
/// that is wrong, missing or too many. A frame that is read has the octets that the writers write from what it
/// says, so two frames that say the same are the same; and no other place, or answer, fits the octets.
#[tactic(auto, using(crate::proofs::Reading::reading))]
pub fn read(frame: &[u8]) -> Result<Frame<'_>, FrameFault>
    ensures read { Read frame.now result }
    ensures rewritten { Rewritten frame.now result }
    ensures one { OnePlace Readable frame.now }
{
    let kind = Kind::try_from(frame.first().copied().unwrap_or(0))?;
    if let Some(place) = first_wrong(frame, kind) {
        return Err(FrameFault::Unreadable { place });
    }
    let log_on = LogOn {
        aircraft: frame[1],
        number: u32::from_be_bytes([frame[2], frame[3], frame[4], frame[5]]),
    };
    let number = number_of(kind, frame[6]);
    let len = frame.len();
    match kind {
        Kind::UplinkData | Kind::DownlinkData => Ok(Frame::Data {
            log_on,
            number,
            bdu: Bdu {
                header: BduHeader::from(frame[7]),
                payload: &frame[8..len],
            },
        }),
        Kind::UplinkReport | Kind::DownlinkReport => Ok(Frame::Report {
            log_on,
            oldest: number,
            flags: Flags { octet: frame[7] },
        }),
    }
}
