//! CIDs of the first of some blocks.

ghost use Rattle.std.specs.Prelude.{◌≡◌, [], ◌++◌, ◌∷◌, length, nat_lt, slice_get, if◌then◌else◌};

use cid::Cid;
use std::marker::Model;

/// How many CIDs are kept.
const ROOM: usize = 32;

/// The CIDs of the first of some blocks, in their order, on the stack.
///
/// A contract sees it as the list of the CIDs.
#[derive(Drop)]
pub(crate) struct Hashed {
    cids: [Cid; ROOM],
    count: usize,
}

impl Model for Hashed {
    ghost use Rattle.std.specs.Prelude.{◌≡◌, ◌≤◌, ℕ, List, length, take};

    ghost Value = { List (List ℕ) };

    ghost view = { λ h. take h.count h.cids };

    ghost invariant = { λ h. (h.count ≤ 32) × (length (take h.count h.cids) ≡ h.count) };
}

impl Hashed {
    /// None yet. The room holds this CID until others are known.
    pub(crate) fn none(any: Cid) -> Hashed
        ensures { result ≡ [] }
    {
        Hashed {
            cids: [any; ROOM],
            count: 0,
        }
    }

    /// How many there are.
    pub(crate) fn count(&self) -> usize
        ensures { result ≡ length self.now }
    {
        self.count
    }

    /// The one at a place.
    pub(crate) fn get(&self, place: usize) -> Option<Cid>
        ensures { result ≡ slice_get self.now place }
    {
        if place < self.count {
            Some(self.cids[place])
        } else {
            None
        }
    }

    /// Adds one after the others, where there is room.
    pub(crate) fn push(&mut self, cid: Cid)
        ensures { self.new
            ≡ (if nat_lt (length self.old) 32 then self.old ++ cid ∷ [] else self.old) }
    {
        if self.count < ROOM {
            self.cids[self.count] = cid;
            self.count += 1;
        }
    }
}
