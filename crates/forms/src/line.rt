//! Lines of input.
ghost use Rattle.forms.specs.Lines.{Said};

/// A line without the newline at its end, which the last line may lack.
pub fn without_newline(line: &[u8]) -> &[u8]
    ensures { Said line.now result.now }
{
    line.strip_suffix(b"\n").unwrap_or(line)
}
