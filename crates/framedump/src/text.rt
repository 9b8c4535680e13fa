//! Frames and refusals, to be printed in words.
ghost use Rattle.std.specs.Prelude.{◌≡◌, Some};
ghost use Rattle.framedump.specs.Dumps.{way_word, header_text, frame_text, refusal_text, misfit_text};
ghost use Rattle.frame.specs.Directions.{way_of, octet_of};

use crate::flagged::Flagged;
use forms::Octets;
use frame::{BduHeader, Frame, FrameNumber, Number, Refusal};
use std::fmt;

/// The word for the way of a number, and the number's octet.
fn way_and_octet(number: FrameNumber) -> (&'static str, u8)
    ensures way { result.0.now ≡ way_word (way_of number) }
    ensures octet { result.1 ≡ octet_of number }
{
    match number {
        FrameNumber::Uplink(n) => ("uplink", n.octet()),
        FrameNumber::Downlink(n) => ("downlink", n.octet()),
    }
}

/// A BDU header.
#[derive(Clone, Copy)]
struct HeaderText(BduHeader);

impl fmt::Display for HeaderText {
    ghost output = { λ text. Some (header_text text.0) };

    fn fmt<W: fmt::Write>(&self, f: &mut fmt::Formatter<W>) -> fmt::Result {
        let BduHeader { rn, q, more, bsn } = self.0;
        let m = u8::from(more);
        write!(f, ", Q {q}, RN {rn}, M {m}, BSN {bsn}")
    }
}

/// A frame.
#[derive(Clone, Copy)]
pub struct FrameText<'a>(pub Frame<'a>);

impl fmt::Display for FrameText<'_> {
    ghost output = { λ text. Some (frame_text text.0) };

    fn fmt<W: fmt::Write>(&self, f: &mut fmt::Formatter<W>) -> fmt::Result {
        match self.0 {
            Frame::Data {
                log_on,
                number,
                bdu,
            } => {
                let (way, octet) = way_and_octet(number);
                let aircraft = log_on.aircraft;
                let log_on = log_on.number;
                let header = HeaderText(bdu.header);
                let payload = Octets(bdu.payload);
                write!(
                    f,
                    "{way} data: aircraft {aircraft}, log-on {log_on}, number {octet}{header}, payload {payload}"
                )
            }
            Frame::Report {
                log_on,
                oldest,
                flags,
            } => {
                let (way, octet) = way_and_octet(oldest);
                let aircraft = log_on.aircraft;
                let log_on = log_on.number;
                let flagged = Flagged {
                    oldest: octet,
                    flags,
                };
                write!(
                    f,
                    "report of {way} numbers: aircraft {aircraft}, log-on {log_on}, R {octet}, flagged{flagged}"
                )
            }
        }
    }
}

/// A refusal of the frame layer.
#[derive(Clone, Copy)]
pub struct RefusalText(pub Refusal);

impl fmt::Display for RefusalText {
    ghost output = { λ text. Some (refusal_text text.0) };

    fn fmt<W: fmt::Write>(&self, f: &mut fmt::Formatter<W>) -> fmt::Result {
        let number = u8::from(self.0.reason);
        match self.0.place {
            Some(place) => write!(f, "refused {number} by frame at octet {place}"),
            None => write!(f, "refused {number} by frame"),
        }
    }
}

/// That a line lists no octets, with the place of its first character that fits no list.
#[derive(Clone, Copy)]
pub struct NoOctets {
    pub place: usize,
}

impl fmt::Display for NoOctets {
    ghost output = { λ text. Some (misfit_text text.place) };

    fn fmt<W: fmt::Write>(&self, f: &mut fmt::Formatter<W>) -> fmt::Result {
        // Wider, since a place may be the last of `usize`.
        let column = self.place as u128 + 1;
        write!(f, "no list of octets: column {column}")
    }
}
