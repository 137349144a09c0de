//! A writer that numbers its notices and keeps what a full queue gives back, as a host's writer does.
ghost use Rattle.std.specs.Prelude.{◌≡◌, [], length};

use cid::Cid;
use cid::digests::Toy;
use notices::{Notice, Queue, SendPass, Sender};
use std::alloc::{Allocator, Global};
use std::sync::Wait;

/// The notice of this number of this writer. No two are alike in any part but the writer's.
pub fn notice(writer: u32, seq: u64) -> Notice
    ensures writer { result.writer ≡ writer }
    ensures seq { result.seq ≡ seq }
{
    Notice {
        writer,
        seq,
        repo: writer ^ 7,
        number: seq ^ 1,
        root: Cid::of::<Toy>(&seq.to_le_bytes()),
    }
}

/// What came of a push.
#[derive(Clone, Copy, PartialEq, Eq, Debug)]
pub enum Pushed {
    Put,
    GivenBack,
    /// It wasn't tried: the notice isn't the writer's next.
    NotNext,
}

#[derive(Drop)]
pub struct Writer<'a, A: Allocator = Global> {
    sender: Sender<'a, A>,
    sent: u64,
    ghost counted: { sent ≡ length sender.pass.sent },
}

impl<'a, A: Allocator> Writer<'a, A> {
    pub fn new(queue: &'a Queue<A>, pass: SendPass) -> Writer<'a, A>
        requires queue { pass.queue_id ≡ queue.now.queue_id }
        requires fresh { pass.sent ≡ [] }
        ensures { result.sender.pass.queue_id ≡ queue.now.queue_id }
    {
        Writer {
            sender: queue.sender(pass),
            sent: 0,
        }
    }

    pub fn push<R: Wait>(&mut self, rt: &R, notice: Notice) -> Pushed
        ensures { self.new.sender.pass.queue_id ≡ self.old.sender.pass.queue_id }
    {
        let Some(next) = self.sent.checked_add(1) else {
            return Pushed::NotNext;
        };
        if notice.writer != self.sender.writer() || notice.seq != next {
            return Pushed::NotNext;
        }
        match self.sender.push(rt, notice) {
            Ok(()) => {
                self.sent = next;
                Pushed::Put
            }
            Err(_) => Pushed::GivenBack,
        }
    }

    pub fn writer(&self) -> u32 {
        self.sender.writer()
    }

    /// How often the queue gave a notice back.
    pub fn refused(&self) -> u64 {
        self.sender.refused()
    }

    pub fn end(self) -> SendPass
        ensures { result.queue_id ≡ self.entry.sender.pass.queue_id }
    {
        self.sender.end()
    }
}
