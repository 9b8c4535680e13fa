//! What framedump prints of a line.
ghost use Rattle.std.specs.Prelude.{IfOk, string_bytes};
ghost use Rattle.framedump.specs.Dumps.{Dumped};

use crate::text::{FrameText, NoOctets, RefusalText};
use forms::{OctetsFault, read_octets};
use frame::{Refusal, read};
use std::alloc::{AllocError, Global};

/// What is printed of a line: the frame whose octets it lists, the refusal of that frame, or that it lists none.
pub fn dump_line(heap: Global, line: &[u8]) -> Result<String, AllocError>
    ensures { IfOk result (λ s. Dumped line.now (string_bytes s)) }
{
    match read_octets(heap, line) {
        Ok(octets) => match read(&octets) {
            Ok(frame) => FrameText(frame).to_string(heap),
            Err(fault) => RefusalText(Refusal::from(fault)).to_string(heap),
        },
        Err(OctetsFault::Misfit { place }) => NoOctets { place }.to_string(heap),
        Err(OctetsFault::Memory) => Err(AllocError),
    }
}
