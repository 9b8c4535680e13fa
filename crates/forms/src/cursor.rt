//! A cursor over a line: it passes a literal word, a number, and finds the line's end.
ghost use Rattle.std.specs.Prelude.{◌≡◌, ◌+◌, ◌*◌, ◌^◌, ◌<◌, ◌≤◌, ◌==◌, ◌++◌, length, take};
ghost use Rattle.std.specs.List.{common_prefix_len};
ghost use Rattle.std.specs.Option.{SomeIff};
ghost use Rattle.forms.specs.Cursors.{Digits, Stops, Value, PassesWord, PassesNumber, FindsEnd, Standing};

use crate::fault::FormFault;
use std::marker::Model;

/// A line has at most so many characters.
pub(crate) const LONGEST: usize = 2048;

/// What is left of a line, and how many of its characters have been passed.
#[derive(Drop)]
pub(crate) struct Cursor<'a> {
    left: &'a [u8],
    passed: usize,
}

impl<'a> Model for Cursor<'a> {
    ghost Value = { Standing };

    ghost view = { λ c. record { left = c.left.now; passed = c.passed } };

    ghost invariant = { λ c. c.passed + length c.left.now ≤ 2048 };
}

/// How many characters two texts share at their fronts.
fn shared_front(text: &[u8], word: &[u8]) -> usize
    ensures { result ≡ common_prefix_len (λ a b. a == b) text.now word.now }
{
    text.iter().zip(word).take_while(|(a, b)| a == b).count()
}

/// The digits at the front of a text, and what stands behind them.
fn split_digits(text: &[u8]) -> (&[u8], &[u8])
    ensures whole { text.now ≡ result.0.now ++ result.1.now }
    ensures all { Digits result.0.now }
    ensures stops { Stops result.1.now }
{
    let count = text.iter().take_while(|c| c.is_ascii_digit()).count();
    text.split_at(count)
}

/// A number with one more digit behind it, where that is at most 4,294,967,295.
fn with_digit(number: u32, digit: u8) -> Option<u32>
    ensures { SomeIff result (number * 10 + digit < 2 ^ 32) (number * 10 + digit) }
{
    number.checked_mul(10)?.checked_add(u32::from(digit))
}

/// The number that digits write, or, as an error, the place of the first digit with which it passes 4,294,967,295.
// The error is the place itself: its one caller makes a column of it, and would only unwrap a type around it.
fn value(digits: &[u8]) -> Result<u32, usize>
    requires { Digits digits.now }
    ensures { Value digits.now result }
{
    let mut number = 0;
    for (place, digit) in digits.iter().enumerate() {
        number = with_digit(number, *digit - b'0').ok_or(place)?;
    }
    Ok(number)
}

impl<'a> Cursor<'a> {
    /// A cursor before the first character of a line, over what a line may hold of it.
    #[tactic(auto, using(std::proofs::lemmas::List::take_min))]
    pub(crate) fn new(line: &'a [u8]) -> Cursor<'a>
        ensures left { result.left ≡ take 2048 line.now }
        ensures passed { result.passed ≡ 0 }
    {
        let len = LONGEST.min(line.len());
        Cursor {
            left: &line[..len],
            passed: 0,
        }
    }

    /// The refusal of the character at a place of what is left.
    fn fault_at(&self, place: usize) -> FormFault
        requires { place ≤ length self.now.left }
        ensures { result.column ≡ self.now.passed + place + 1 }
    {
        FormFault {
            column: self.passed + place + 1,
        }
    }

    /// Passes a literal word.
    pub(crate) fn word(&mut self, word: &[u8]) -> Result<(), FormFault>
        ensures { PassesWord word.now self.old self.new result }
    {
        let Some(left) = self.left.strip_prefix(word) else {
            return Err(self.fault_at(shared_front(self.left, word)));
        };
        self.left = left;
        self.passed += word.len();
        Ok(())
    }

    /// Passes a number in decimal digits, of which there may be leading zeros.
    pub(crate) fn number(&mut self) -> Result<u32, FormFault>
        ensures { PassesNumber self.old self.new result }
    {
        let (digits, left) = split_digits(self.left);
        if digits.is_empty() {
            return Err(self.fault_at(0));
        }
        // `map_err` and `?` instead of `match`: no proof was found through what the closure answers.
        match value(digits) {
            Ok(number) => {
                self.left = left;
                self.passed += digits.len();
                Ok(number)
            }
            Err(place) => Err(self.fault_at(place)),
        }
    }

    /// Finds the end of the line.
    pub(crate) fn end(&self) -> Result<(), FormFault>
        ensures { FindsEnd self.now result }
    {
        match self.left {
            [] => Ok(()),
            [..] => Err(self.fault_at(0)),
        }
    }
}
