//! A waiting line: first in, first out, over a slice that the caller lends.
ghost use Rattle.std.specs.Prelude.{◌≡◌, ◌+◌, ◌%◌, ◌<◌, ◌≤◌, [], ◌∷◌, length, is_err, option_copied, MatchOption};
ghost use Rattle.channel.specs.WaitingLines.{empty, is_full, oldest, pushed, popped};

use std::marker::Model;

/// An entry finds no free place in a line.
#[derive(Clone, Copy, Debug, PartialEq, Eq)]
pub struct LineFull;

/// Entries that wait in the order in which they came. They lie from the place `first` on, and go on at the room's front when they
/// reach its end, so a place that becomes free is used again. Nothing is allocated, and no entry but the one that comes or goes
/// is copied.
#[derive(Drop)]
pub struct WaitingLine<'a, T> {
    room: &'a mut [T],
    first: usize,
    count: usize,
}

// Clauses see the entries, oldest first, and how many the room holds.
impl<'a, T> Model for WaitingLine<'a, T> {
    ghost use Rattle.std.specs.Prelude.{◌<◌, ◌≤◌, length};
    ghost use Rattle.channel.specs.WaitingLines.{Line, line_in};

    ghost Value = { Line T };

    ghost view = { λ l. line_in l.first l.count l.room.now };

    ghost invariant = { λ l. (l.count ≤ length l.room.now) × (0 < length l.room.now → l.first < length l.room.now) };
}

/// The place that lies `steps` behind the place `first`, in a room of `len` places of which the last is followed by the first.
fn place_behind(first: usize, steps: usize, len: usize) -> usize
    requires inside { first < len }
    requires once_round { steps ≤ len }
    ensures { result ≡ (first + steps) % len }
{
    // `first + steps` itself might not fit.
    let to_end = len - first;
    if steps < to_end {
        first + steps
    } else {
        steps - to_end
    }
}

impl<'a, T: Copy> WaitingLine<'a, T> {
    /// A line in which nothing waits, with the slice as its room.
    pub fn new(room: &'a mut [T]) -> Self
        ensures { result ≡ empty (length room.old) }
    {
        WaitingLine {
            room,
            first: 0,
            count: 0,
        }
    }

    /// How many entries wait.
    pub fn len(&self) -> usize
        ensures waiting { result ≡ length self.now.waiting }
        ensures within { length self.now.waiting ≤ self.now.room }
    {
        self.count
    }

    /// How many places of the room are free.
    pub fn free(&self) -> usize
        ensures { result + length self.now.waiting ≡ self.now.room }
    {
        self.room.len() - self.count
    }

    /// Whether every place of the room is taken.
    pub fn is_full(&self) -> bool
        ensures { result ≡ is_full self.now }
    {
        self.free() == 0
    }

    /// Puts an entry behind the others, or refuses it where every place is taken.
    pub fn push(&mut self, item: T) -> Result<(), LineFull>
        ensures refused { is_err result ≡ is_full self.old }
        ensures line { self.new ≡ pushed item self.old }
    {
        if self.is_full() {
            return Err(LineFull);
        }
        let place = place_behind(self.first, self.count, self.room.len());
        self.room[place] = item;
        self.count += 1;
        Ok(())
    }

    /// Takes the oldest entry out of the line.
    pub fn pop(&mut self) -> Option<T>
        ensures oldest { result ≡ oldest self.old }
        ensures line { self.new ≡ popped self.old }
        ensures taken { MatchOption result (self.old.waiting ≡ []) (λ item. self.old.waiting ≡ item ∷ self.new.waiting) }
    {
        if self.count == 0 {
            return None;
        }
        let item = self.room[self.first];
        self.first = place_behind(self.first, 1, self.room.len());
        self.count -= 1;
        Some(item)
    }

    /// The oldest entry, which goes on waiting.
    pub fn first(&self) -> Option<&T>
        ensures { option_copied result ≡ oldest self.now }
    {
        if self.count == 0 {
            return None;
        }
        // Borrowed whole first, since the checker covers no borrow of a part of what the field lends.
        let room = &*self.room;
        Some(&room[self.first])
    }
}
