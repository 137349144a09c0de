//! A writer that tells notices to a queue, and is given back what the full queue doesn't take.

ghost use Rattle.std.specs.Prelude.{◌≡◌, [], length};

use crate::repositories::Heap;
use cid::Cid;
use cid::digests::Toy;
use notices::{Notice, Queue, SendPass, Sender};
use std::sync::Wait;

/// The notice of this number of this writer.
pub(crate) fn notice(writer: u32, seq: u64) -> Notice
    ensures writer { result.writer ≡ writer }
    ensures seq { result.seq ≡ seq }
{
    Notice {
        writer,
        seq,
        repo: writer,
        number: seq,
        root: Cid::of::<Toy>(b""),
    }
}

/// A writer at a queue.
#[derive(Drop)]
pub(crate) struct Writer<'q, 'h> {
    sender: Sender<'q, Heap<'h>>,
    sent: u64,
    ghost counted: { sent ≡ length sender.pass.sent },
}

impl<'q, 'h> Writer<'q, 'h> {
    /// The writer of this pass, which has sent nothing.
    pub(crate) fn new(queue: &'q Queue<Heap<'h>>, pass: SendPass) -> Writer<'q, 'h>
        requires queue { pass.queue_id ≡ queue.now.queue_id }
        requires fresh { pass.sent ≡ [] }
        ensures { result.sender.pass.queue_id ≡ queue.now.queue_id }
    {
        Writer {
            sender: queue.sender(pass),
            sent: 0,
        }
    }

    /// Tells its next notice: `None` says that the queue took it, else it was given back.
    pub(crate) fn tell<R: Wait>(&mut self, rt: &R) -> Option<Notice>
        ensures { self.new.sender.pass.queue_id ≡ self.old.sender.pass.queue_id }
    {
        let next = self.sent.checked_add(1)?;
        let told = notice(self.sender.writer(), next);
        match self.sender.push(rt, told) {
            Ok(()) => {
                self.sent = next;
                None
            }
            Err(back) => Some(back),
        }
    }

    /// Leaves the queue with the pass.
    pub(crate) fn end(self) -> SendPass
        ensures { result.queue_id ≡ self.entry.sender.pass.queue_id }
    {
        self.sender.end()
    }
}
