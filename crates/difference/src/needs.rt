//! What a layer needs.

ghost use Rattle.std.specs.Prelude.{◌≡◌, ◌++◌, ◌∷◌, [], false, IfOk, OnOk, IsTrue};
ghost use Rattle.std.specs.List.{cons_option};
ghost use Rattle.difference_laws.specs.Lines.{links_in, without};
ghost use Rattle.difference.specs.Sides.{line_of};

use crate::line::{Line, Links, unless};
use cid::Cid;
use std::alloc::{AllocError, Allocator};
use std::clone::Clone;

/// The CIDs of the blocks that a layer needs, in order, where somebody wants to know them.
#[derive(Drop)]
pub(crate) struct Needs<A: Allocator> {
    pub(crate) is_wanted: bool,
    pub(crate) cids: Vec<Cid, A>,
}

impl<A: Allocator + Clone> Needs<A> {
    /// Nobody wants to know.
    pub(crate) fn unwanted(alloc: A) -> Needs<A>
        ensures { result.is_wanted ≡ false }
    {
        Needs {
            is_wanted: false,
            cids: Vec::new(alloc),
        }
    }

    /// Two roots, which are needed before any layer.
    pub(crate) fn of_roots(alloc: A, old: Cid, new: Cid) -> Result<Needs<A>, AllocError>
        ensures wanted { IfOk result (λ needs. IsTrue needs.is_wanted) }
        ensures cids { IfOk result (λ needs. needs.cids.items ≡ old ∷ new ∷ []) }
    {
        let mut cids = Vec::with_capacity(alloc, 2)?;
        cids.push(old)?;
        cids.push(new)?;
        Ok(Needs {
            is_wanted: true,
            cids,
        })
    }

    /// Another layer begins.
    pub(crate) fn clear(&mut self)
        ensures cids { self.new.cids.items ≡ [] }
        ensures wanted { self.new.is_wanted ≡ self.old.is_wanted }
    {
        self.cids.clear();
    }

    /// One link more, if there is one.
    fn push(&mut self, link: Option<Cid>) -> Result<(), AllocError>
        ensures cids { OnOk result
            (self.new.cids.items ≡ self.old.cids.items ++ cons_option link []) }
        ensures wanted { self.new.is_wanted ≡ self.old.is_wanted }
    {
        if let Some(cid) = link {
            self.cids.push(cid)?;
        }
        Ok(())
    }

    /// The links of a line but these are needed too.
    pub(crate) fn add(&mut self, line: &Line<A>, shared: &Links<A>) -> Result<(), AllocError>
        ensures cids { IsTrue self.old.is_wanted → OnOk result (self.new.cids.items
            ≡ self.old.cids.items ++ links_in (without shared.now.keys (line_of line.now))) }
        ensures wanted { self.new.is_wanted ≡ self.old.is_wanted }
    {
        if !self.is_wanted {
            return Ok(());
        }
        for row in &line.rows {
            self.push(unless(shared, row.link))?;
        }
        self.push(unless(shared, line.last))?;
        Ok(())
    }
}
