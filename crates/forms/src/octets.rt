//! Lists of octets as text: two lower-case hexadecimal digits each, with single spaces between.
ghost use Rattle.std.specs.Prelude.{◌≡◌, ◌<◌, [], ◌∷◌, IfOk, OnOk, string_bytes, Some};
ghost use Rattle.std.specs.Fmt.{WritesOnOk};
ghost use Rattle.forms.specs.declared.octets.OctetsFault.TheVariants.{Memory};
ghost use Rattle.forms.specs.Octets.{digit, octets_text, DigitOf, DigitAt, OctetAt, OctetsRead, ReadBack, TextTells};

use std::alloc::{AllocError, AllocFailed, Global};
use std::fmt;

/// Why a text was not read as a list of octets.
#[derive(Clone, Copy)]
pub enum OctetsFault {
    /// The text is no list of octets: the place of its first character that is wrong, missing or too many.
    Misfit { place: usize },
    /// There is no memory for the octets.
    Memory,
}

impl From<AllocError> for OctetsFault {
    ghost from_gives = { λ _ r. r ≡ Memory };

    fn from(_e: AllocError) -> OctetsFault {
        OctetsFault::Memory
    }
}

impl<T: Drop> From<AllocFailed<T>> for OctetsFault {
    ghost from_gives = { λ _ r. r ≡ Memory };

    fn from(_e: AllocFailed<T>) -> OctetsFault {
        OctetsFault::Memory
    }
}

/// The hexadecimal digit that a character is, if it is one.
fn digit_value(character: u8) -> Option<u8>
    ensures { DigitOf character result }
{
    // `char::to_digit` would take `A` to `F` too.
    match character {
        b'0'..=b'9' => Some(character - b'0'),
        b'a'..=b'f' => Some(character - b'a' + 10),
        _ => None,
    }
}

/// The hexadecimal digit at a place of a text.
fn digit_at(text: &[u8], place: usize) -> Result<u8, OctetsFault>
    ensures { DigitAt text.now place result }
{
    text.get(place)
        .copied()
        .and_then(digit_value)
        .ok_or(OctetsFault::Misfit { place })
}

/// The octet whose two digits stand at a place of a text.
fn octet_at(text: &[u8], place: usize) -> Result<u8, OctetsFault>
    ensures { OctetAt text.now place result }
{
    let high = digit_at(text, place)?;
    let low = digit_at(text, place + 1)?;
    Ok(high * 16 + low)
}

/// The list of octets that a text is, or the place of the first character that fits no list of octets.
pub fn read_octets(heap: Global, text: &[u8]) -> Result<Vec<u8>, OctetsFault>
    ensures { OctetsRead text.now result }
{
    let mut octets = Vec::new(heap);
    if text.is_empty() {
        return Ok(octets);
    }
    octets.push(octet_at(text, 0)?)?;
    // By place and not by chunks: the error tells the place of the first misfit.
    for place in (2..text.len()).step_by(3) {
        if text[place] != b' ' {
            return Err(OctetsFault::Misfit { place });
        }
        octets.push(octet_at(text, place + 1)?)?;
    }
    Ok(octets)
}

/// A hexadecimal digit.
fn digit_text(value: u8) -> &'static str
    requires { value < 16 }
    ensures { result.now ≡ digit value ∷ [] }
{
    match value {
        0 => "0",
        1 => "1",
        2 => "2",
        3 => "3",
        4 => "4",
        5 => "5",
        6 => "6",
        7 => "7",
        8 => "8",
        9 => "9",
        10 => "a",
        11 => "b",
        12 => "c",
        13 => "d",
        14 => "e",
        _ => "f",
    }
}

/// Writes the two digits of an octet.
// Not `{octet:02x}`: tried, and dumps of data frames, which are mostly octets, took 1.6 times as long.
fn write_octet<W: fmt::Write>(f: &mut fmt::Formatter<W>, octet: u8) -> fmt::Result
    ensures { WritesOnOk W.Write.write_str_gives f.old result (octets_text (octet ∷ [])) f.new }
{
    f.write_str(digit_text(octet / 16))?;
    f.write_str(digit_text(octet % 16))
}

/// A list of octets, to be printed as text.
#[derive(Clone, Copy)]
pub struct Octets<'a>(pub &'a [u8]);

impl fmt::Display for Octets<'_> {
    ghost output = { λ octets. Some (octets_text octets.0.now) };

    fn fmt<W: fmt::Write>(&self, f: &mut fmt::Formatter<W>) -> fmt::Result {
        let &[first, ref rest @ ..] = self.0 else {
            return Ok(());
        };
        write_octet(f, first)?;
        for &octet in rest {
            f.write_str(" ")?;
            write_octet(f, octet)?;
        }
        Ok(())
    }
}

// For a caller that wants a text; one that prints takes `Octets`.
/// The text of a list of octets.
pub fn octets_text(heap: Global, octets: &[u8]) -> Result<String, AllocError>
    ensures { IfOk result (λ s. string_bytes s ≡ octets_text octets.now) }
{
    Octets(octets).to_string(heap)
}

/// The octets that come back where a list of octets is written as text and that text is read: the same.
#[tactic(auto, using(crate::proofs::OctetTexts::read_back, crate::proofs::OctetTexts::text_tells))]
pub fn read_back(heap: Global, octets: &[u8]) -> Result<Vec<u8>, OctetsFault>
    ensures back { ReadBack octets.now result }
    ensures tells { TextTells }
{
    let text = octets_text(heap, octets)?;
    read_octets(heap, text.as_bytes())
}
