//! The two directions as types, so that a half is one text for both.
ghost use Rattle.std.specs.Prelude.{◌≡◌, MatchOption, ◌≢◌, refl};
ghost use Rattle.frame.specs.Directions.{data_kind, report_kind, way_of, octet_of};
ghost use Rattle.frame.specs.declared.kind.Kind.{Kind};
ghost use Rattle.frame.specs.declared.kind.Kind.TheVariants as Kind;
ghost use Rattle.frame.specs.declared.kind.Way.{Way};
ghost use Rattle.frame.specs.declared.kind.Way.TheVariants.{Up, Down};

use crate::kind::Kind;
use crate::number::{DownlinkNumber, FrameNumber, Number, UplinkNumber};

/// A direction: the type of its numbers, and the kinds of its data frames and of the reports on them.
pub trait Direction {
    type Number: Number;

    /// The kind of this direction's data frames.
    const DATA: Kind;

    /// The kind of the reports on this direction's numbers.
    const REPORT: Kind;

    ghost DATA: { Kind };

    ghost REPORT: { Kind };

    ghost way: { Way };

    /// The number, if it is one of this direction.
    fn own(number: FrameNumber) -> Option<Self::Number>
        ensures { MatchOption result (way_of number ≢ way) (λ n. (way_of number ≡ way) × (Self.Number.Number.value n ≡ octet_of number)) };

    ghost data_is: { DATA ≡ data_kind way };

    ghost report_is: { REPORT ≡ report_kind way };
}

/// From the ground to the aircraft.
#[derive(Clone, Copy)]
pub struct Uplink;

/// From the aircraft to the ground.
#[derive(Clone, Copy)]
pub struct Downlink;

// The two impls are the table of what differs between the directions, which has to stand somewhere once for each.
impl Direction for Uplink {
    type Number = UplinkNumber;

    const DATA: Kind = Kind::UplinkData;

    const REPORT: Kind = Kind::UplinkReport;

    ghost DATA = { Kind.UplinkData };

    ghost REPORT = { Kind.UplinkReport };

    ghost way = { Up };

    ghost data_is = { refl };

    ghost report_is = { refl };

    fn own(number: FrameNumber) -> Option<UplinkNumber> {
        match number {
            FrameNumber::Uplink(n) => Some(n),
            FrameNumber::Downlink(_) => None,
        }
    }
}

impl Direction for Downlink {
    type Number = DownlinkNumber;

    const DATA: Kind = Kind::DownlinkData;

    const REPORT: Kind = Kind::DownlinkReport;

    ghost DATA = { Kind.DownlinkData };

    ghost REPORT = { Kind.DownlinkReport };

    ghost way = { Down };

    ghost data_is = { refl };

    ghost report_is = { refl };

    fn own(number: FrameNumber) -> Option<DownlinkNumber> {
        match number {
            FrameNumber::Uplink(_) => None,
            FrameNumber::Downlink(n) => Some(n),
        }
    }
}
