//! A session: what linkrun knows between two lines.
ghost use Rattle.std.specs.Prelude.{◌≡◌, ◌≤◌};
ghost use Rattle.forms.specs.declared.form.Form.TheVariants.{Slot};
ghost use Rattle.forms.specs.Sessions.{Performs, Acts, Answers};

use crate::fault::SessionFault;
use crate::form::Form;
use crate::read::read_form;
use crate::reply::Reply;
use frame::Refusal;

/// The clock goes no further than this slot, the last one of the service. This crate does not stand on the rules, which have it too.
const LAST_SLOT: u32 = 4_000_000_000;

/// A session of linkrun.
#[derive(Drop)]
pub struct Session {
    clock: u32,
    ghost last: { clock ≤ 4000000000 },
}

impl Session {
    /// A session at its start, with the clock at slot 0.
    pub fn new() -> Session
        ensures { result.clock ≡ 0 }
    {
        Session { clock: 0 }
    }

    /// Reads a line, performs the form that it spells, and says what came of it.
    pub fn answer(&mut self, line: &[u8]) -> Reply
        ensures { Answers self.old.clock line.now result self.new.clock }
    {
        self.act(line)
            .unwrap_or_else(|fault| Reply::Refused(Refusal::from(fault)))
    }

    /// Reads a line, and performs the form that it spells.
    fn act(&mut self, line: &[u8]) -> Result<Reply, SessionFault>
        ensures { Acts self.old.clock line.now result self.new.clock }
    {
        let form = read_form(line)?;
        self.perform(form)
    }

    /// Performs a form.
    fn perform(&mut self, form: Form) -> Result<Reply, SessionFault>
        ensures { Performs self.old.clock form result self.new.clock }
    {
        match form {
            Form::Slot(slot) => self.move_clock(slot),
        }
    }

    /// Moves the clock on to a slot.
    fn move_clock(&mut self, slot: u32) -> Result<Reply, SessionFault>
        ensures { Performs self.old.clock (Slot slot) result self.new.clock }
    {
        if !(self.clock..=LAST_SLOT).contains(&slot) {
            return Err(SessionFault::Slot);
        }
        self.clock = slot;
        Ok(Reply::Slot)
    }
}
