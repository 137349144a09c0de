//! What a batch adds to a set of blocks and drops from it.
//!
//! Blocks are found by the places of their CIDs, so a batch of any size costs little more than its blocks.

ghost use Rattle.std.specs.Prelude.{◌≡◌, ℕ, List, ◌∷◌, [], ◌++◌, length, map, IfOk, IfErr, OnOk};
ghost use Rattle.std.specs.Arc.{arc_value};
ghost use Rattle.spec.specs.Cid.{cid as cid_of};
ghost use Rattle.edit.specs.Firsts.{HasPlaces, HasFirsts, first_place, place_in};
ghost use Rattle.spec.specs.NodeFormat.{shape_bytes};
ghost use Rattle.edit.specs.States.{shapes_in};
ghost use Rattle.spec.specs.Blocks.{IsClashFree};
ghost use Rattle.edit_laws.specs.Changes.{add_of, drop_of, has_cid};
ghost use Rattle.edit.specs.Among.{IsAmong};
ghost use Rattle.edit.specs.Refusals.{IsRefusal};

use crate::edge::ReadNode;
use crate::outcome::EditFault;
use crate::shown::Shown;
use block::{Block, Collided};
use cid::{Cid, Digest};
use std::alloc::{AllocError, Allocator};
use std::collections::BTreeMap;
use std::sync::Arc;

/// Of the blocks that were made those whose CIDs were not read, each once. A made block that has the CID of one that
/// was read, or of another made one, and other bytes, is a clash.
pub(crate) fn added<D: Digest, A: Allocator + Clone>(
    alloc: A,
    read: &[ReadNode<'_, D, A>],
    old: &Places<A>,
    made: Vec<Arc<Block<D, A>, A>, A>,
) -> Result<Vec<Arc<Block<D, A>, A>, A>, EditFault<D, A>>
    requires { HasPlaces (map (cid_of D.digest_of) (map arc_value read.now)) old.now }
    ensures add { IfOk result (λ add. map arc_value add.items ≡ add_of D.digest_of
        (map arc_value read.now) (map arc_value made.items)) }
    ensures clash_free { IsClashFree D.digest_of (map arc_value read.now) → IfOk result
        (λ add. IsClashFree D.digest_of (map arc_value add.items ++ map arc_value read.now)) }
    ensures made { IsClashFree D.digest_of (map arc_value read.now) → OnOk result
        (IsClashFree D.digest_of (map arc_value made.items ++ map arc_value read.now)) }
    ensures fault { IfErr result
        (IsRefusal D.digest_of (map arc_value made.items ++ map arc_value read.now) ⊥) }
{
    let count = made.len();
    let mut new = Places::new(alloc.clone()?, count)?;
    let mut add = Vec::new(alloc);
    for block in made {
        if !is_among(&block, read, old)? && !is_among(&block, &add, &new)? {
            new.push(block.cid(), add.len())?;
            add.push(block)?;
        }
    }
    Ok(add)
}

/// The CIDs of the nodes that go, but for those of blocks that are made.
pub(crate) fn dropped<D: Digest, A: Allocator + Clone>(
    alloc: A,
    made: &[Arc<Block<D, A>, A>],
    gone: &[ReadNode<'_, D, A>],
) -> Result<Vec<Cid, A>, AllocError>
    ensures { IfOk result (λ dropped. dropped.items
        ≡ drop_of D.digest_of (map arc_value made.now) (map arc_value gone.now)) }
{
    let new = places_of_made(alloc.clone()?, made)?;
    let mut dropped = Vec::new(alloc);
    for lent in gone {
        let cid = lent.block().cid();
        if !new.has(&cid) {
            dropped.push(cid)?;
        }
    }
    Ok(dropped)
}

/// Where the first of the blocks with each CID stands.
pub(crate) fn places_of_read<D: Digest, A: Allocator + Clone>(
    alloc: A,
    blocks: &[ReadNode<'_, D, A>],
) -> Result<Places<A>, AllocError>
    ensures places { IfOk result
        (λ places. HasPlaces (map (cid_of D.digest_of) (map arc_value blocks.now)) places) }
    ensures spelled { OnOk result
        (map arc_value blocks.now ≡ map shape_bytes (shapes_in blocks.now)) }
{
    let mut places = Places::new(alloc, blocks.len())?;
    for (count, block) in blocks.iter().enumerate() {
        places.push(block.block().cid(), count)?;
    }
    Ok(places)
}

/// Where the first of the blocks with each CID stands.
fn places_of_made<D: Digest, A: Allocator + Clone>(
    alloc: A,
    blocks: &[Arc<Block<D, A>, A>],
) -> Result<Places<A>, AllocError>
    ensures { IfOk result
        (λ places. HasPlaces (map (cid_of D.digest_of) (map arc_value blocks.now)) places) }
{
    let mut places = Places::new(alloc, blocks.len())?;
    for (count, block) in blocks.iter().enumerate() {
        places.push(block.cid(), count)?;
    }
    Ok(places)
}

/// Whether the block is one of these; its CID with other bytes is a clash.
fn is_among<D: Digest, A: Allocator + Clone, T: Shown<D, A>>(
    block: &Arc<Block<D, A>, A>,
    others: &[T],
    places: &Places<A>,
) -> Result<bool, EditFault<D, A>>
    requires { HasPlaces (map (cid_of D.digest_of) (map T.bytes others.now)) places.now }
    ensures found { IfOk result
        (IsAmong D.digest_of (arc_value block.now) (map T.bytes others.now)) }
    ensures fault { IfErr result
        (IsRefusal D.digest_of (arc_value block.now ∷ map T.bytes others.now) ⊥) }
{
    let cid = block.cid();
    let Some(place) = places.find(&cid) else {
        return Ok(false);
    };
    let Some(other) = others.get(place) else {
        unreachable!()
    };
    is_same(block, other.shown())
}

/// Whether two blocks are the same; one CID with different bytes is a clash.
fn is_same<D: Digest, A: Allocator>(
    one: &Arc<Block<D, A>, A>,
    other: &Arc<Block<D, A>, A>,
) -> Result<bool, EditFault<D, A>>
    ensures found { IfOk result
        (IsAmong D.digest_of (arc_value one.now) (arc_value other.now ∷ [])) }
    ensures fault { IfErr result
        (IsRefusal D.digest_of (arc_value one.now ∷ arc_value other.now ∷ []) ⊥) }
{
    if one.cid() != other.cid() {
        return Ok(false);
    }
    if one.bytes() == other.bytes() {
        return Ok(true);
    }
    Err(EditFault::Clash(Collided::of_shared(one, other)?))
}

/// How long a list is at most that is looked through.
const FEW: usize = 24;

/// The first place of each CID in a list that grows: the list itself where it is short, else a map.
#[derive(Drop)]
pub(crate) enum Places<A: Allocator> {
    Few(Vec<Cid, A>),
    Many(BTreeMap<Cid, usize, A>),
}

impl<A: Allocator + Clone> Places<A> {
    /// Of the empty list, where so many are to come.
    pub(crate) fn new(alloc: A, count: usize) -> Result<Places<A>, AllocError>
        ensures { IfOk result (HasPlaces []) }
    {
        if count > FEW {
            return Ok(Places::Many(BTreeMap::new(alloc)));
        }
        Ok(Places::Few(Vec::with_capacity(alloc, count)?))
    }

    /// The place of a CID.
    pub(crate) fn find(&self, cid: &Cid) -> Option<usize>
        ensures { result ≡ place_in self.now cid.now }
    {
        match self {
            Places::Few(cids) => place_among(cids, cid),
            Places::Many(places) => places.get(cid).copied(),
        }
    }

    /// Whether the list has a CID.
    pub(crate) fn has(&self, cid: &Cid) -> bool
        ensures { (cids : List (List ℕ)) → HasPlaces cids self.now
            → result ≡ has_cid cid.now cids }
    {
        self.find(cid).is_some()
    }

    /// One more comes, after so many.
    pub(crate) fn push(&mut self, cid: Cid, count: usize) -> Result<(), AllocError>
        ensures { (cids : List (List ℕ)) → HasPlaces cids self.old → count ≡ length cids
            → OnOk result (HasPlaces (cids ++ cid ∷ []) self.new) }
    {
        match self {
            Places::Few(cids) => Ok(cids.push(cid)?),
            Places::Many(places) => put_first(places, cid, count),
        }
    }
}

/// Where a CID stands first among some.
fn place_among(cids: &[Cid], cid: &Cid) -> Option<usize>
    ensures { result ≡ first_place cid.now cids.now }
{
    cids.iter().position(|other| other.is_same(cid))
}

/// One more CID comes, after so many; where it is there, it keeps its place.
fn put_first<A: Allocator + Clone>(
    places: &mut BTreeMap<Cid, usize, A>,
    cid: Cid,
    count: usize,
) -> Result<(), AllocError>
    ensures { (cids : List (List ℕ)) → HasFirsts cids places.old → count ≡ length cids
        → OnOk result (HasFirsts (cids ++ cid ∷ []) places.new) }
{
    places.entry(cid)?.or_insert(count);
    Ok(())
}
