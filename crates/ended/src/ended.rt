//! Writers that have ended.
ghost use Rattle.std.specs.Prelude.{◌≡◌};

use notices::{Notice, SendPass};
use std::alloc::{Allocator, Global};
use std::marker::Model;

/// A writer that has ended: its pass, the notices that it kept, and for each repository the greatest number of accepted
/// writes that it has seen there.
#[derive(Drop)]
pub struct Ended<A: Allocator = Global> {
    pub(crate) pass: SendPass,
    pub(crate) kept: Vec<Notice, A>,
    pub(crate) seen: Vec<u64, A>,
}

impl<A: Allocator> Model for Ended<A> {
    ghost use Rattle.ended.specs.Ending.{EndedView};

    ghost Value = { EndedView };

    ghost view = { λ e. record { pass = e.pass; kept = e.kept.items; seen = e.seen.items } };
}

impl<A: Allocator> Ended<A> {
    /// A writer with this pass, which keeps these notices and has seen so many accepted writes in each repository.
    pub fn new(pass: SendPass, kept: Vec<Notice, A>, seen: Vec<u64, A>) -> Ended<A>
        ensures { result ≡ record { pass = pass; kept = kept.items; seen = seen.items } }
    {
        Ended { pass, kept, seen }
    }

    /// The writer's number.
    pub fn writer(&self) -> u32
        ensures { result ≡ self.now.pass.writer }
    {
        self.pass.writer()
    }

    /// The notices that it kept, the oldest first.
    pub fn kept(&self) -> &[Notice]
        ensures { result.now ≡ self.now.kept }
    {
        &self.kept
    }

    /// For each repository the greatest number of accepted writes that it has seen there.
    pub fn seen(&self) -> &[u64]
        ensures { result.now ≡ self.now.seen }
    {
        &self.seen
    }
}
