//! Reading a form.
ghost use Rattle.std.specs.Prelude.{take};
ghost use Rattle.forms.specs.Cursors.{ReadsFront};
ghost use Rattle.forms.specs.Forms.{Reads};

use crate::cursor::{Cursor, LONGEST};
use crate::fault::FormFault;
use crate::form::Form;

/// Reads the form `(slot N)`, of what a line may hold of its characters.
fn read_slot(line: &[u8]) -> Result<Form, FormFault>
    ensures { ReadsFront (take 2048 line.now) result }
{
    let mut cursor = Cursor::new(line);
    cursor.word(b"(slot ")?;
    let slot = cursor.number()?;
    cursor.word(b")")?;
    cursor.end()?;
    Ok(Form::Slot(slot))
}

/// Reads a line as a form, or says which column holds the first character that fits none. A line has at most 2,048
/// characters; an early end counts as the character behind the last.
#[tactic(auto, using(crate::proofs::Limits::too_long, crate::proofs::Limits::whole))]
pub fn read_form(line: &[u8]) -> Result<Form, FormFault>
    ensures { Reads line.now result }
{
    let form = read_slot(line)?;
    if line.len() > LONGEST {
        return Err(FormFault {
            column: LONGEST + 1,
        });
    }
    Ok(form)
}
