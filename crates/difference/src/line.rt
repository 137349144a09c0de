//! A tree down to some layer.

ghost use Rattle.std.specs.Prelude.{◌≡◌, ◌↔◌, ℕ, List, [], true, false, IsTrue, MatchOption, Some, IfOk};
ghost use Rattle.spec.specs.NodeFormat.{LastLink};
ghost use Rattle.difference_laws.specs.Lines.{link_without, links_in, repeats};
ghost use Rattle.difference.specs.Sides.{HasLinks, IsNoted, line_of};

use crate::keys::Key;
use cid::Cid;
use std::alloc::{AllocError, Allocator};
use std::clone::Clone;
use std::collections::BTreeSet;

/// A pair of a tree, and the link before it.
#[derive(Drop)]
pub(crate) struct Row<A: Allocator> {
    pub(crate) link: Option<Cid>,
    pub(crate) key: Key<A>,
    pub(crate) value: Cid,
}

/// The pairs of a tree down to some layer, in order, and the links between them to what is below.
#[derive(Drop)]
pub(crate) struct Line<A: Allocator> {
    pub(crate) rows: Vec<Row<A>, A>,
    pub(crate) last: Option<Cid>,
}

/// The links of a line.
pub(crate) type Links<A> = BTreeSet<Cid, A>;

/// One link more. It answers whether it was there already.
fn note<A: Allocator + Clone>(links: &mut Links<A>, link: Option<Cid>) -> Result<bool, AllocError>
    ensures { (cids : List (List ℕ)) → HasLinks cids links.old
        → IfOk result (λ again. IsNoted cids link again links.new) }
{
    let Some(cid) = link else {
        return Ok(false);
    };
    let is_new = links.insert(cid)?;
    Ok(!is_new)
}

/// The link, unless it is one of these.
pub(crate) fn unless<A: Allocator>(links: &Links<A>, link: Option<Cid>) -> Option<Cid>
    ensures { (cids : List (List ℕ)) → HasLinks cids links.now → result ≡ link_without cids link }
{
    let cid = link?;
    if links.contains(&cid) {
        return None;
    }
    Some(cid)
}

impl<A: Allocator + Clone> Line<A> {
    /// The line of one link.
    pub(crate) fn of(alloc: A, link: Cid) -> Line<A>
        ensures { line_of result ≡ LastLink (Some link) }
    {
        Line {
            rows: Vec::new(alloc),
            last: Some(link),
        }
    }

    /// The links, or none where one stands twice.
    pub(crate) fn links(&self, alloc: A) -> Result<Option<Links<A>>, AllocError>
        ensures { IfOk result (λ links. MatchOption links
            (repeats (links_in (line_of self.now)) ≡ true)
            (λ links. HasLinks (links_in (line_of self.now)) links
            × (repeats (links_in (line_of self.now)) ≡ false))) }
    {
        let mut links = Links::new(alloc);
        for row in &self.rows {
            if note(&mut links, row.link)? {
                return Ok(None);
            }
        }
        if note(&mut links, self.last)? {
            return Ok(None);
        }
        Ok(Some(links))
    }

    /// Whether it is pairs alone.
    pub(crate) fn has_no_links(&self) -> bool
        ensures { IsTrue result ↔ (links_in (line_of self.now) ≡ []) }
    {
        for row in &self.rows {
            if row.link.is_some() {
                return false;
            }
        }
        self.last.is_none()
    }
}
