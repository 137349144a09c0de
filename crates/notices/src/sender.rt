ghost use Rattle.std.specs.Prelude.{◌≡◌, ◌+◌, length, OnOk, OnErr, IfErr};
ghost use Rattle.notices.specs.Views.{with_sent, refused_once, WasFull};

use crate::notice::Notice;
use crate::passes::SendPass;
use crate::queue::Queue;
use std::alloc::{Allocator, Global};
use std::marker::Model;
use std::sync::Wait;

/// A writer at the queue, from `Queue::sender` until `Sender::end`.
///
/// A contract sees how many notices the queue has room for, the writer's pass, and how many notices were given back,
/// modulo 2^64.
#[derive(Drop)]
pub struct Sender<'a, A: Allocator = Global> {
    pub(crate) queue: &'a Queue<A>,
    pub(crate) refused: u64,
    pub(crate) pass: SendPass,
}

impl<'a, A: Allocator> Model for Sender<'a, A> {
    ghost use Rattle.std.specs.Prelude.{◌≡◌};
    ghost use Rattle.notices.specs.Views.{SenderView};

    ghost Value = { SenderView };

    ghost view = { λ s. record { room = s.queue.now.room; refused = s.refused; pass = s.pass } };

    ghost invariant = { λ s. s.pass.queue_id ≡ s.queue.now.queue_id };
}

impl<'a, A: Allocator> Sender<'a, A> {
    /// The writer's number.
    pub fn writer(&self) -> u32
        ensures { result ≡ self.now.pass.writer }
    {
        self.pass.writer()
    }

    /// How many notices were given back, modulo 2^64.
    pub fn refused(&self) -> u64
        ensures { result ≡ self.now.refused }
    {
        self.refused
    }

    /// Puts the notice into the queue, or gives it back only where the queue was full at some moment of the call.
    ///
    /// The notice must have this writer's number, and a `seq` one greater than the last that was put, 1 at first. It
    /// takes no memory, and waits for nothing but the queue's own steps. What was given back may be put again.
    pub fn push<R: Wait>(&mut self, rt: &R, notice: Notice) -> Result<(), Notice>
        requires writer { notice.writer ≡ self.old.pass.writer }
        requires next { notice.seq ≡ length self.old.pass.sent + 1 }
        ensures sent { OnOk result (self.new ≡ with_sent self.old notice) }
        ensures given_back { IfErr result (λ back. back ≡ notice) }
        ensures refused { OnErr result (self.new ≡ refused_once self.old) }
        ensures full { OnErr result (WasFull self.old.room self.old.pass) }
    {
        match self.queue.put(rt, &mut self.pass, notice) {
            Ok(()) => Ok(()),
            Err(back) => {
                self.refused = self.refused.wrapping_add(1);
                Err(back)
            }
        }
    }

    /// Leaves the queue with the pass, which may send again later, or join.
    pub fn end(self) -> SendPass
        ensures { result ≡ self.entry.pass }
    {
        self.pass
    }
}
