//! What a session of linkrun refuses.
ghost use Rattle.std.specs.Prelude.{◌≡◌};
ghost use Rattle.forms.specs.Refusals.{misread, refused};
ghost use Rattle.forms.specs.declared.fault.SessionFault.TheVariants as faults;

use frame::{Layer, Reason, Refusal};

/// The first character that fits no form stands in this column, from 1. An early end counts as the character behind the last.
#[derive(Clone, Copy)]
pub struct FormFault {
    pub column: usize,
}

/// What a session refuses.
#[derive(Clone, Copy)]
pub enum SessionFault {
    /// A line that is no form.
    Form(FormFault),
    /// A slot before the clock or behind 4,000,000,000.
    Slot,
}

impl From<FormFault> for Refusal {
    ghost from_gives = { λ fault r. r ≡ misread fault };

    fn from(fault: FormFault) -> Refusal {
        Refusal {
            reason: Reason::Form,
            layer: Layer::Linkrun,
            place: Some(fault.column),
        }
    }
}

impl From<SessionFault> for Refusal {
    ghost from_gives = { λ fault r. r ≡ refused fault };

    fn from(fault: SessionFault) -> Refusal {
        match fault {
            SessionFault::Form(fault) => Refusal::from(fault),
            SessionFault::Slot => Refusal {
                reason: Reason::Slot,
                layer: Layer::Linkrun,
                place: None,
            },
        }
    }
}

impl From<FormFault> for SessionFault {
    ghost from_gives = { λ fault r. r ≡ faults.Form fault };

    fn from(misread: FormFault) -> SessionFault {
        SessionFault::Form(misread)
    }
}
