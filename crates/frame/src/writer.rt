//! Writing a frame.
ghost use Rattle.std.specs.Prelude.{◌≡◌, ◌+◌, ◌≤◌, ◌++◌, length, drop};
ghost use Rattle.frame.specs.Writing.{head_octets};
ghost use Rattle.frame.specs.Written.{DataWritten, ReportWritten};

use crate::bdu::Bdu;
use crate::direction::Direction;
use crate::fault::FrameFault;
use crate::flags::Flags;
use crate::kind::Kind;
use crate::logon::LogOn;
use crate::number::Number;
use crate::sizes::FRAME_ROOM;

/// The first eight octets of a frame: its kind, aircraft and log-on number, a number, and the octet behind it.
fn head(kind: Kind, log_on: LogOn, number: u8, last: u8) -> [u8; 8]
    ensures { result ≡ head_octets kind log_on.aircraft log_on.number number last }
{
    let [a, b, c, d] = log_on.number.to_be_bytes();
    [u8::from(kind), log_on.aircraft, a, b, c, d, number, last]
}

/// Writes `front` and then `rest` at the front of the buffer.
#[tactic(auto, using(std::proofs::lemmas::Slice::overwrites))]
fn put(buffer: &mut [u8], front: &[u8], rest: &[u8])
    requires { length front.now + length rest.now ≤ length buffer.old }
    ensures { buffer.new ≡ front.now ++ rest.now
        ++ drop (length front.now + length rest.now) buffer.old }
{
    let k = front.len();
    let n = rest.len();
    buffer[0..k].copy_from_slice(front);
    buffer[k..k + n].copy_from_slice(rest);
}

/// Writes a data frame of a direction into a buffer of 61 octets or more, and answers its length. A shorter buffer is
/// refused and stays as it is.
#[tactic(auto, using(crate::proofs::Octets::data_back, crate::proofs::Octets::data_goes))]
pub fn write_data<D: Direction>(
    buffer: &mut [u8],
    log_on: LogOn,
    number: D::Number,
    bdu: Bdu<'_>,
) -> Result<usize, FrameFault>
    ensures { DataWritten D.Direction.way log_on.aircraft log_on.number (D.Number.Number.value number)
        bdu.entry.header bdu.entry.payload.now buffer.old result buffer.new }
{
    if buffer.len() < FRAME_ROOM {
        return Err(FrameFault::Buffer);
    }
    // A header alone may hold any numbers, and keeps that; the one of a `Bdu` fits.
    let Some(header) = bdu.header.octet() else {
        unreachable()
    };
    let front = head(D::DATA, log_on, number.octet(), header);
    put(buffer, &front, bdu.payload);
    Ok(8 + bdu.payload.len())
}

/// Writes a report on a direction's numbers into a buffer of 61 octets or more, and answers its length. A shorter buffer
/// is refused and stays as it is.
pub fn write_report<D: Direction>(
    buffer: &mut [u8],
    log_on: LogOn,
    oldest: D::Number,
    flags: Flags,
) -> Result<usize, FrameFault>
    ensures { ReportWritten D.Direction.way log_on.aircraft log_on.number (D.Number.Number.value oldest)
        flags.octet buffer.old result buffer.new }
{
    if buffer.len() < FRAME_ROOM {
        return Err(FrameFault::Buffer);
    }
    let front = head(D::REPORT, log_on, oldest.octet(), flags.octet);
    put(buffer, &front, &[]);
    Ok(8)
}
