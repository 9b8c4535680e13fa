//! What linkrun answers to a line.
ghost use Rattle.std.specs.Prelude.{Some};
ghost use Rattle.forms.specs.Replies.{reply_text};

use frame::Refusal;
use std::fmt;

/// The answer to a line.
// No `Result`: it is printed, and only a type of this crate can have a `Display` of its own.
#[derive(Clone, Copy)]
pub enum Reply {
    /// The clock moved.
    Slot,
    /// The form was not performed, or the line is none.
    Refused(Refusal),
}

impl fmt::Display for Reply {
    ghost output = { λ reply. Some (reply_text reply) };

    fn fmt<W: fmt::Write>(&self, f: &mut fmt::Formatter<W>) -> fmt::Result {
        match self {
            Reply::Slot => f.write_str("(slot)"),
            Reply::Refused(refusal) => {
                let number = u8::from(refusal.reason);
                match refusal.place {
                    Some(place) => write!(f, "(refused {number} {place})"),
                    None => write!(f, "(refused {number})"),
                }
            }
        }
    }
}
