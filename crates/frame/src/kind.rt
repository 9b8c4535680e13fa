//! The kinds of frames, and the way that a number goes.
ghost use Rattle.std.specs.Prelude.{◌≡◌};
ghost use Rattle.frame.specs.Directions.{kind_octet};
ghost use Rattle.frame.specs.Kinds.{KindRead};

use crate::fault::FrameFault;

/// The way of a data frame: up to the aircraft, or down to the ground.
#[derive(Clone, Copy)]
pub enum Way {
    Up,
    Down,
}

/// The four kinds of frames. A report is named by the data frames that it reports on: the aircraft sends the uplink's.
#[derive(Clone, Copy)]
pub enum Kind {
    UplinkData = 1,
    DownlinkData = 2,
    UplinkReport = 3,
    DownlinkReport = 4,
}

impl TryFrom<u8> for Kind {
    type Error = FrameFault;

    ghost try_from_gives = { KindRead };

    /// The kind that octet 0 of a frame stands for, if it stands for one.
    fn try_from(octet: u8) -> Result<Kind, FrameFault> {
        match octet {
            1 => Ok(Kind::UplinkData),
            2 => Ok(Kind::DownlinkData),
            3 => Ok(Kind::UplinkReport),
            4 => Ok(Kind::DownlinkReport),
            _ => Err(FrameFault::Unreadable { place: 0 }),
        }
    }
}

impl From<Kind> for u8 {
    ghost from_gives = { λ kind r. r ≡ kind_octet kind };

    /// The octet that stands for the kind in a frame.
    fn from(kind: Kind) -> u8 {
        kind as u8
    }
}
