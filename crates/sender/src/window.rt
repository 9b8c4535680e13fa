//! The window of a sending half: the oldest number that is not acknowledged, and the eight behind it.
ghost use Rattle.std.specs.Prelude.{◌≡◌, ◌+◌, ◌<◌, ◌≤◌, ◌++◌, MatchOption, drop, map, replicate, slice_set};
ghost use Rattle.std.specs.List.{range_with_len};
ghost use Rattle.rules.specs.Constants.{window_size};
ghost use Rattle.sender.specs.Windows.{mark_in};
ghost use Rattle.rules.specs.Sending as rule;
ghost use Rattle.sender.specs.Hearings.{tells};

use crate::hearing::Hearing;
use crate::mark::{is_acknowledged, is_open};
use crate::packets::Packets;
use crate::row::put;
use rules::Mark;
use std::array::from_fn;
use std::marker::Model;

/// The numbers of a window, as `window_size` of the rules says: an array's length is a constant.
pub(crate) const WINDOW: usize = 9;

/// The marks of the window's numbers, the oldest first. Contracts see it as the list of them.
#[derive(Drop)]
pub(crate) struct Window {
    marks: [Mark; WINDOW],
}

impl Model for Window {
    ghost use Rattle.std.specs.Prelude.{◌≡◌, List, length};
    ghost use Rattle.rules.specs.Constants.{window_size};
    ghost use Rattle.rules.specs.declared.window.Mark.{Mark};

    ghost Value = { List Mark };

    ghost view = { λ w. w.marks };

    ghost invariant = { λ w. length w.marks ≡ window_size };
}

impl Window {
    /// A window of which no number was used yet.
    pub(crate) fn new() -> Window
        ensures { result ≡ replicate window_size Mark.Unused }
    {
        Window {
            marks: [Mark::Unused; WINDOW],
        }
    }

    /// The marks, the oldest number's first.
    pub(crate) fn as_slice(&self) -> &[Mark]
        ensures { result.now ≡ self.now }
    {
        &self.marks
    }

    /// The mark of the number at a place; behind the window there are only unused ones.
    pub(crate) fn mark(&self, k: usize) -> Mark
        ensures { result ≡ mark_in self.now k }
    {
        self.marks.get(k).copied().unwrap_or(Mark::Unused)
    }

    /// Gives the number at a place a mark; behind the window nothing happens.
    pub(crate) fn set(&mut self, k: usize, mark: Mark)
        ensures { self.new ≡ slice_set self.old k mark }
    {
        put(&mut self.marks, k, mark);
    }

    /// The place of the first number under which a BDU can be sent.
    pub(crate) fn first_open(&self) -> Option<usize>
        ensures { let opening = rule.first window_size (λ k. rule.is_open (mark_in self.now k)) in
            MatchOption result (opening ≡ window_size) (λ k. (k < window_size) × (k ≡ opening)) }
    {
        self.marks.iter().position(|mark| is_open(*mark))
    }

    /// How many numbers at the front are acknowledged.
    pub(crate) fn lead(&self) -> usize
        ensures most { result ≤ window_size }
        ensures found { result ≡ rule.lead self.now }
    {
        self.marks
            .iter()
            .take_while(|mark| is_acknowledged(**mark))
            .count()
    }

    /// Moves the window on; the new numbers at its top are unused.
    pub(crate) fn shift(&mut self, by: usize)
        requires { by ≤ window_size }
        ensures { self.new ≡ drop by self.old ++ replicate by Mark.Unused }
    {
        // As the receiving half moves its flags on: both are these calls of the library, and one function for them would be no shorter.
        self.marks = from_fn(|k| self.mark(by + k));
    }

    /// Which of the eight numbers behind the oldest are acknowledged.
    pub(crate) fn acknowledged(&self) -> [bool; 8]
        ensures { result ≡ map (λ i. rule.is_acknowledged (mark_in self.now (1 + i))) (range_with_len 0 8) }
    {
        from_fn(|i| is_acknowledged(self.mark(1 + i)))
    }

    /// What a report makes of each number.
    pub(crate) fn judge(&mut self, report: &Hearing)
        ensures { self.new ≡ rule.judge (tells report.now) report.now.slot self.old }
    {
        for (k, mark) in self.marks.iter_mut().enumerate() {
            *mark = report.verdict(k, *mark).mark;
        }
    }

    /// Numbers on their way lose the BDUs of packets that expire in the slot.
    pub(crate) fn leave(&mut self, packets: &Packets, slot: u32)
        ensures { self.new ≡ map (rule.left slot packets.now) self.old }
    {
        for mark in &mut self.marks {
            *mark = left(*mark, packets, slot);
        }
    }
}

/// A number on its way loses the BDU of a packet that expires.
fn left(mark: Mark, packets: &Packets, slot: u32) -> Mark
    ensures { result ≡ rule.left slot packets.now mark }
{
    match mark {
        Mark::OnItsWay {
            slot: sent,
            bdu: Some(bdu),
        } if packets.expires(bdu, slot) => Mark::OnItsWay {
            slot: sent,
            bdu: None,
        },
        mark => mark,
    }
}
