//! The BDU header.
ghost use Rattle.std.specs.Prelude.{◌≡◌};
ghost use Rattle.frame.specs.Headers.{header_of, HeaderWritten};

/// What the header octet of a BDU says: its packet's reference number and priority, whether more BDUs of
/// the packet follow, and which BDU of the packet it is, from 0.
#[derive(Clone, Copy)]
pub struct BduHeader {
    pub rn: u8,
    pub q: u8,
    pub more: bool,
    pub bsn: u8,
}

impl From<u8> for BduHeader {
    ghost from_gives = { λ octet r. r ≡ header_of octet };

    /// The header that an octet stands for.
    fn from(octet: u8) -> BduHeader {
        BduHeader {
            rn: octet / 64,
            q: octet / 16 % 4,
            more: octet / 8 % 2 == 1,
            bsn: octet % 8,
        }
    }
}

impl BduHeader {
    /// The octet that stands for the header; none where a field is too large for it.
    // An `Option` and no `TryFrom`: there is one reason, and an error type for it would say no more.
    pub fn octet(self) -> Option<u8>
        ensures { HeaderWritten self result }
    {
        if self.rn > 3 || self.q > 3 || self.bsn > 7 {
            return None;
        }
        Some(64 * self.rn + 16 * self.q + 8 * u8::from(self.more) + self.bsn)
    }
}
