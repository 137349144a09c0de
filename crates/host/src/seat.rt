//! A writer's place at a host.

ghost use Rattle.std.specs.Prelude.{◌≡◌};

use notices::{Notice, SendPass};
use std::alloc::{Allocator, Global};
use std::collections::VecDeque;
use std::marker::Model;

/// A writer's place at a host, from `Host::open` until `Host::writer`.
///
/// There is one for each writer, and it can't be copied. It goes from thread to thread. A contract sees the writer's pass, by
/// which nothing has been sent, and for each repository how many accepted writes were seen there.
#[derive(Drop)]
pub struct Seat<A: Allocator = Global> {
    pub(crate) pass: SendPass,
    pub(crate) kept: VecDeque<Notice, A>,
    pub(crate) seen: Vec<u64, A>,
}

impl<A: Allocator> Model for Seat<A> {
    ghost use Rattle.std.specs.Prelude.{◌≡◌, []};
    ghost use Rattle.host.specs.Views.{SeatView};

    ghost Value = { SeatView };

    ghost view = { λ s. record { pass = s.pass; seen = s.seen.items } };

    ghost invariant = { λ s. (s.pass.sent ≡ []) × (s.kept.items ≡ []) };
}

impl<A: Allocator> Seat<A> {
    /// The writer's number.
    pub fn writer(&self) -> u32
        ensures { result ≡ self.now.pass.writer }
    {
        self.pass.writer()
    }
}
