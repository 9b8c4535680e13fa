//! The numbers of data frames, a type of its own for each direction.
ghost use Rattle.std.specs.Prelude.{◌≡◌, ℕ, ◌%◌, ◌<◌};
ghost use Rattle.frame.specs.Numbers.{advanced, distance as apart};
ghost use Rattle.std.proofs.Common.{rules};

/// What the numbers of both directions do: they count modulo 256.
pub trait Number: Copy {
    ghost value: { Self → ℕ };

    /// The number that an octet names.
    fn from_octet(octet: u8) -> Self
        ensures { value result ≡ octet };

    /// The octet that stands for the number in a frame.
    fn octet(self) -> u8
        ensures { result ≡ value self };

    /// The number `steps` later.
    fn advance(self, steps: u8) -> Self
        ensures { value result ≡ advanced (value self) steps }
    {
        Self::from_octet(self.octet().wrapping_add(steps))
    }

    /// How many steps `later` lies behind this number.
    fn distance(self, later: Self) -> u8
        ensures { result ≡ apart (value self) (value later) }
    {
        later.octet().wrapping_sub(self.octet())
    }

    ghost small: { (n : Self) → value n < 256 };
}

// A struct for each direction, as the link wants it: an uplink number is never taken for a downlink one. What is left twice is
// the two lines by which each is an octet; `From` would not do for these: a bound `From<u8>` tells nothing of the
// trait's `value`.

/// A number of an uplink data frame.
#[derive(Clone, Copy)]
pub struct UplinkNumber(u8);

/// A number of a downlink data frame.
#[derive(Clone, Copy)]
pub struct DownlinkNumber(u8);

impl Number for UplinkNumber {
    ghost value = { λ n. n.0 % 256 };

    ghost small = { Prim.search rules };

    fn from_octet(octet: u8) -> UplinkNumber {
        UplinkNumber(octet)
    }

    fn octet(self) -> u8 {
        self.0
    }
}

impl Number for DownlinkNumber {
    ghost value = { λ n. n.0 % 256 };

    ghost small = { Prim.search rules };

    fn from_octet(octet: u8) -> DownlinkNumber {
        DownlinkNumber(octet)
    }

    fn octet(self) -> u8 {
        self.0
    }
}

/// The number that a frame shows, of whichever direction the frame is.
#[derive(Clone, Copy)]
pub enum FrameNumber {
    Uplink(UplinkNumber),
    Downlink(DownlinkNumber),
}
