//! The flags of a report.
ghost use Rattle.std.specs.Prelude.{◌≡◌, if◌then◌else◌};
ghost use Rattle.frame.specs.Flags.{marks_of, flags_octet};

/// The flags of a report: bit `i` stands for the number `i + 1` behind the oldest one not received.
#[derive(Clone, Copy)]
pub struct Flags {
    pub octet: u8,
}

/// What a flag adds to the octet.
// Tried as `u8::from(mark) * value` in the sum itself: what the sum is did not prove.
fn worth(mark: bool, value: u8) -> u8
    ensures { result ≡ (if mark then value else 0) }
{
    if mark { value } else { 0 }
}

impl From<[bool; 8]> for Flags {
    ghost from_gives = { λ marks r. (r.octet ≡ flags_octet marks) × (marks_of r.octet ≡ marks) };

    /// The flags of which those at `true` are set.
    fn from(marks: [bool; 8]) -> Flags {
        let [a, b, c, d, e, f, g, h] = marks;
        let low = worth(a, 1) + worth(b, 2) + worth(c, 4) + worth(d, 8);
        let high = worth(e, 16) + worth(f, 32) + worth(g, 64) + worth(h, 128);
        Flags { octet: low + high }
    }
}

impl Flags {
    /// Which flags are set.
    // A method and no `From`: `<[bool; 8]>::from(flags)` reads worse. Tried as a `map` over 1, 2, 4 and so on: that no divisor is 0 did
    // not prove in the closure.
    pub fn marks(self) -> [bool; 8]
        ensures { result ≡ marks_of self.octet }
    {
        let n = self.octet;
        [
            n % 2 == 1,
            n / 2 % 2 == 1,
            n / 4 % 2 == 1,
            n / 8 % 2 == 1,
            n / 16 % 2 == 1,
            n / 32 % 2 == 1,
            n / 64 % 2 == 1,
            n / 128 % 2 == 1,
        ]
    }
}
