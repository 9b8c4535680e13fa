//! The numbers that a report flags.
ghost use Rattle.std.specs.Prelude.{Some};
ghost use Rattle.framedump.specs.Dumps.{flagged_text};

use frame::Flags;
use std::fmt;

/// The numbers flagged behind the oldest one, to be printed each behind a space, or that there is none.
#[derive(Clone, Copy)]
pub struct Flagged {
    pub oldest: u8,
    pub flags: Flags,
}

impl fmt::Display for Flagged {
    ghost output = { λ report. Some (flagged_text report.oldest report.flags) };

    fn fmt<W: fmt::Write>(&self, f: &mut fmt::Formatter<W>) -> fmt::Result {
        let marks = self.flags.marks();
        if !marks.contains(&true) {
            return f.write_str(" none");
        }
        let first = self.oldest.wrapping_add(1);
        for (step, mark) in marks.iter().enumerate() {
            if *mark {
                // A place of eight fits.
                write!(f, " {}", first.wrapping_add(step as u8))?;
            }
        }
        Ok(())
    }
}
