//! The places of one lane of the steered line.
ghost use Rattle.std.specs.Prelude.{◌≡◌, ◌<◌, ◌≤◌, ◌%◌, length, replicate, None, position, is_none};
ghost use Rattle.channel.specs.Places.{frame_of, frames_of, filled, read_place, spared, answer, written};

use crate::Taken;
use crate::giving::give;
use arrayvec::ArrayVec;
use frame::FRAME_ROOM;
use std::array;

/// The places of a lane.
const PLACES: usize = 16;

/// A frame underway, with the slot of its put.
#[derive(Drop)]
pub(crate) struct Carried {
    pub(crate) octets: ArrayVec<u8, FRAME_ROOM>,
    pub(crate) slot: u32,
}

/// The places of one lane: each is empty or holds a frame.
#[derive(Drop)]
pub(crate) struct Places {
    places: [Option<Carried>; PLACES],
}

impl Places {
    /// Places that hold nothing.
    pub(crate) fn new() -> Places
        ensures { frames_of result ≡ replicate 16 None }
    {
        Places {
            places: array::from_fn(|_| None),
        }
    }

    /// The first empty place.
    fn free(&self) -> Option<usize>
        ensures { result ≡ position is_none self.now.places }
    {
        self.places.iter().position(Option::is_none)
    }

    /// Puts a frame into the first empty place, or loses it if there is none.
    pub(crate) fn put(&mut self, frame: Carried)
        ensures { frames_of self.new ≡ filled (frame_of frame) (frames_of self.old) }
    {
        if let Some(free) = self.free() {
            self.places[free] = Some(frame);
        }
    }

    /// Writes the frame of a place at the front of a buffer, if it was put in the slot `since` or later.
    fn read(&self, at: usize, since: u32, buffer: &mut [u8]) -> Option<Taken>
        requires place { at < 16 }
        requires room { 61 ≤ length buffer.old }
        ensures taken { result ≡ answer (read_place at since (frames_of self.now)) }
        ensures buffer { buffer.new ≡ written (read_place at since (frames_of self.now)) buffer.old }
    {
        match &self.places[at] {
            Some(frame) if frame.slot >= since => {
                Some(give(frame.octets.as_slice(), frame.slot, buffer))
            },
            _ => None,
        }
    }

    /// Takes by an octet that steers: bits 0 to 3 name the place, which is emptied then, unless bit 4 is set. A frame that was
    /// put in the slot `since` or later is written at the front of a buffer.
    pub(crate) fn take(&mut self, octet: u8, since: u32, buffer: &mut [u8]) -> Option<Taken>
        requires { 61 ≤ length buffer.old }
        ensures taken { result ≡ answer (read_place (octet % 16) since (frames_of self.old)) }
        ensures buffer { buffer.new ≡ written (read_place (octet % 16) since (frames_of self.old)) buffer.old }
        ensures places { frames_of self.new ≡ spared octet (frames_of self.old) }
    {
        let at = usize::from(octet % 16);
        let taken = self.read(at, since, buffer);
        if octet / 16 % 2 == 0 {
            self.places[at] = None;
        }
        taken
    }
}
