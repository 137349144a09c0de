//! The CIDs that were noted when their sections were written.

ghost use Rattle.std.specs.Prelude.{◌≡◌, [], not, IfOk, OnOk};
ghost use Rattle.export.specs.Once.{has, HasMore, HasNoted, IsNewOr};

use cid::Cid;
use std::alloc::{AllocError, Allocator};
use std::collections::HashSet;
use std::hash::{BuildHasherDefault, FoldHasher};
use std::marker::Model;

/// The CIDs that were noted when their sections were written: those that may come again.
///
/// A contract sees it as a list of them.
#[derive(Drop)]
pub(crate) struct Seen<A: Allocator> {
    cids: HashSet<Cid, BuildHasherDefault<FoldHasher>, A>,
}

impl<A: Allocator> Model for Seen<A> {
    ghost use Rattle.std.specs.Prelude.{ℕ, List};
    ghost use Rattle.std.specs.HashSet.{keys};

    ghost Value = { List (List ℕ) };

    ghost view = { λ s. keys s.cids };
}

impl<A: Allocator + Clone> Seen<A> {
    /// None so far.
    pub(crate) fn none(alloc: A) -> Seen<A>
        ensures { result ≡ [] }
    {
        Seen {
            cids: HashSet::new(alloc),
        }
    }

    /// Whether this one is new. It is noted if it may come again: of one that can't it is known without a look, and nobody
    /// will ask for it.
    pub(crate) fn note(&mut self, may_repeat: bool, cid: Cid) -> Result<bool, AllocError>
        requires { IsNewOr may_repeat self.now cid }
        ensures new { IfOk result (λ new. new ≡ not (has self.old cid)) }
        ensures noted { OnOk result (HasNoted may_repeat self.old cid self.new) }
    {
        if !may_repeat {
            return Ok(true);
        }
        self.insert(cid)
    }

    /// One more, and whether it is new.
    fn insert(&mut self, cid: Cid) -> Result<bool, AllocError>
        ensures new { IfOk result (λ new. new ≡ not (has self.old cid)) }
        ensures more { OnOk result (HasMore self.old cid self.new) }
    {
        Ok(self.cids.insert(cid)?)
    }
}
