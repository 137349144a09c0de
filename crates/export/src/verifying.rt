//! What a proof shows.

ghost use Rattle.std.specs.Prelude.{◌≤◌, map};
ghost use Rattle.spec.specs.Proof.{verified_within};
ghost use Rattle.spec.specs.Reading.{Gives};
ghost use Rattle.node.specs.Views.{place_of};
ghost use Rattle.export.specs.Faults.{proof_fault_of};
ghost use Rattle.export.specs.GivenBlocks.{AreHashed, place_below};
ghost use Rattle.export.specs.Shown.{IsAnswer, IsRight, IsWhole};

use crate::hashed::Hashed;
use crate::proof_blocks::find;
use crate::proof_fault::ProofFault;
use cid::{Cid, Digest};
use lookups::layers;
use node::{NodeView, Place, is_key};
use std::convert::AsSlice;

/// What the tree with this root has under a key, as some of its nodes show: the key's value, or `None` where the tree
/// doesn't have the key.
///
/// The blocks are those of a proof, in any order: the nodes of the key's path, from the root down to the node that has
/// the key, or to a gap without a subtree in which it would stand. Others among them are passed over, and of two blocks
/// with one CID the first is taken. The key has 1 to 1,024 bytes, and `B` is the number of zero bits of a digest that
/// count for one layer, at least 1 (AT Protocol repository v3, MST structure; the order of the tests is this host's own).
///
/// An answer holds of every list of pairs whose tree has this root and whose nodes clash with none of the given blocks;
/// and where the key's whole path is given there is an answer. So whoever trusts a root needs to trust nothing else, but
/// that no given block has the CID of another block of the tree.
///
/// The first of these faults is the answer, from the root down: `ProofFault::KeyLength` for the key, and then for each
/// node of the path `ProofFault::TooDeep` where more nodes would be read than a tree has layers (`256 / B + 1`),
/// `ProofFault::BlockMissing` where no block has the CID, and `ProofFault::BadNode` where the block is no node.
///
/// It takes no memory. The CIDs of the first 32 blocks are kept on the stack once they are known, so of a
/// proof of at most 32 blocks in the order of the path each is hashed once; at worst each block is hashed once for each
/// node of the path.
pub fn verify<D: Digest, const B: u8, K: AsSlice<u8>>(
    root: &Cid,
    blocks: &[K],
    key: &[u8],
) -> Result<Option<Cid>, ProofFault>
    requires { 1 ≤ B }
    ensures answer { IsAnswer D.digest_of B root.now (map K.items blocks.now) key.now result }

    // An answer is the key's value in each list of pairs with this root.
    ensures right { IsRight D.digest_of B root.now (map K.items blocks.now) key.now result }

    // Where the key's path is given, there is an answer.
    ensures comes { IsWhole D.digest_of B root.now (map K.items blocks.now) key.now result }
{
    if !is_key(key) {
        return Err(ProofFault::KeyLength);
    }
    value_below::<D, K>(blocks, *root, key, layers::<B>())
}

/// What the node with this CID and those below it have under the key, over so many nodes at most.
fn value_below<D: Digest, K: AsSlice<u8>>(
    blocks: &[K],
    top: Cid,
    key: &[u8],
    most: u16,
) -> Result<Option<Cid>, ProofFault>
    ensures { Gives (λ value. value) proof_fault_of result
        (verified_within most D.digest_of (map K.items blocks.now) key.now top) }
{
    let mut hashed = Hashed::none(top);
    let mut cid = top;
    let mut left = most;
    while left > 0 {
        left -= 1;
        match place_below::<D, K>(blocks, &mut hashed, &cid, key) {
            Ok(Place::Here(entry)) => return Ok(Some(entry.value.to_cid())),
            Ok(Place::Below(next)) => cid = next.to_cid(),
            Ok(Place::Gap) => return Ok(None),
            Err(fault) => return Err(fault),
        }
    }
    Err(ProofFault::TooDeep)
}

/// Where the key stands in the node with this CID.
fn place_below<'a, D: Digest, K: AsSlice<u8>>(
    blocks: &'a [K],
    hashed: &mut Hashed,
    cid: &Cid,
    key: &[u8],
) -> Result<Place<'a>, ProofFault>
    requires { AreHashed D.digest_of (map K.items blocks.now) hashed.now }
    ensures place { Gives (place_of key.now) proof_fault_of result
        (place_below D.digest_of (map K.items blocks.now) key.now cid.now) }
    ensures hashed { AreHashed D.digest_of (map K.items blocks.now) hashed.new }
{
    let Some(block) = find::<D, K>(blocks, hashed, cid) else {
        return Err(ProofFault::BlockMissing);
    };
    match NodeView::parse(block) {
        Ok(node) => Ok(node.find(key)),
        Err(fault) => Err(ProofFault::BadNode(fault)),
    }
}
