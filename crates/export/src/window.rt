//! An output that keeps a part.

ghost use Rattle.std.specs.Prelude.{◌≡◌, ◌<◌, ◌≤◌, [], true, length};
ghost use Rattle.export.specs.Windows.{part_of};

use crate::out::{Failed, Out};
use crate::taken::Taken;
use counts::Count;
use std::alloc::Global;
use std::marker::Model;

/// An output that passes over bytes up to a place, keeps as many of the next ones as it has room for, and then fails.
///
/// A contract sees it as the place, the room, the bytes that it has taken, and how often it has failed.
#[derive(Drop)]
pub(crate) struct Window {
    from: u64,
    room: usize,
    left: u64,
    part: Vec<u8>,
    taken: Taken,
    failures: Count,
}

impl Model for Window {
    ghost use Rattle.export.specs.Windows.{Windowed, IsWindow};

    ghost Value = { Windowed };

    ghost view = { λ w. record {
      from = w.from;
      room = w.room;
      taken = w.taken.bytes;
      failures = w.failures.times;
    } };

    ghost invariant = { λ w. IsWindow w.from w.room w.taken.bytes w.left w.part.items };
}

impl Window {
    /// An empty one for `room` bytes from a place on.
    pub(crate) fn new(alloc: Global, from: u64, room: usize) -> Window
        ensures { result ≡ record { from = from; room = room; taken = []; failures = 0 } }
    {
        Window {
            from,
            room,
            left: from,
            part: Vec::new(alloc),
            taken: Taken::nothing(),
            failures: Count::never(),
        }
    }

    /// Whether it is for this place and this room.
    pub(crate) fn is_for(&self, from: u64, room: usize) -> bool
        ensures from { result ≡ true → self.now.from ≡ from }
        ensures room { result ≡ true → self.now.room ≡ room }
    {
        self.from == from && self.room == room
    }

    /// The part.
    pub(crate) fn into_part(self) -> Vec<u8>
        ensures { result.items ≡ part_of self.from self.room self.taken }
    {
        self.part
    }
}

impl Out for Window {
    ghost taken = { λ w. w.taken };

    ghost failures = { λ w. w.failures };

    fn write(&mut self, bytes: &[u8]) -> Result<usize, Failed> {
        if self.left > 0 {
            let count = least(self.left, bytes.len());
            self.left -= count as u64;
            self.taken = self.taken.with(&bytes[..count]);
            return Ok(count);
        }
        let free = self.room - self.part.len();
        let count = least(free as u64, bytes.len());
        if count == 0 && !bytes.is_empty() {
            self.failures = self.failures.once_more();
            return Err(Failed);
        }
        match self.part.extend_from_slice(&bytes[..count]) {
            Ok(()) => {
                self.taken = self.taken.with(&bytes[..count]);
                Ok(count)
            }
            Err(_) => {
                self.failures = self.failures.once_more();
                Err(Failed)
            }
        }
    }
}

/// The smaller of a number and a length.
fn least(number: u64, length: usize) -> usize
    ensures number { result ≤ number }
    ensures length { result ≤ length }
    ensures one { 0 < number → 0 < length → 0 < result }
{
    if number < length as u64 {
        return number as usize;
    }
    length
}
