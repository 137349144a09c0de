//! Look-ups, walks and edits in the trees of what is kept.

ghost use Rattle.std.specs.Prelude.{◌≡◌, ◌≤◌, true, IfOk};
ghost use Rattle.key_changes.specs.Keyed.{are_changes};
ghost use Rattle.kept.specs.Trees.{OfTree, IsValue, AreListed, IsReadOnce, IsApplied, HasNodes, IsApplyRefusal, AreReadFor, IsReadAtMost};

use crate::kept::Kept;
use cid::{Cid, Digest};
use counts::Count;
use edit::{BatchEdit, Change, EditFault};
use std::alloc::{AllocError, Allocator};
use std::clone::Clone;

/// The value of a key in the tree with this root, or `None` where that doesn't have the key, and how many blocks were read
/// for it: one for each layer at most.
///
/// It takes no memory and copies no block.
pub fn value_at<'a, D: Digest + 'a, const B: u8, A: Allocator + 'a>(
    kept: &'a Kept<D, A>,
    root: Cid,
    key: &[u8],
) -> (Option<Cid>, Count)
    requires { 1 ≤ B }
    ensures value { OfTree D.digest_of B kept.now.uses root (IsValue key.now result.0) }
    ensures reads { IsReadOnce D.digest_of B kept.now.uses root result.1 }
{
    let mut source = kept.lender();
    let value = lookups::get::<D, B, A, _>(&mut source, root, key);
    (value, source.asked)
}

/// The first `limit` pairs from a key on in the tree with this root, in the order of the keys.
///
/// `AllocError` comes where memory was refused.
pub fn pairs_from<'a, D: Digest + 'a, const B: u8, A: Allocator + Clone + 'a>(
    alloc: A,
    kept: &'a Kept<D, A>,
    root: Cid,
    from: &[u8],
    limit: usize,
) -> Result<Vec<(Vec<u8, A>, Cid), A>, AllocError>
    requires { 1 ≤ B }
    ensures { OfTree D.digest_of B kept.now.uses root (AreListed from.now limit result) }
{
    let mut source = kept.lender();
    lookups::walk::<D, B, A, _>(alloc, &mut source, root, from, limit)
}

/// The edit that changes many keys of the tree with this root at once, and how many blocks were read for it. The keys have 1
/// to 1,024 bytes and ascend strictly; `edit::are_changes` is the test. It changes nothing here: what it adds and drops can
/// then be exchanged.
///
/// `EditFault::Clash` shows two nodes, of the tree before or after, with one CID and different bytes, and
/// `EditFault::NoMemory` comes where memory was refused. It is no other fault.
pub fn apply_over<'a, D: Digest + 'a, const B: u8, A: Allocator + Clone + 'a>(
    alloc: A,
    kept: &'a Kept<D, A>,
    root: Cid,
    changes: &[Change<'_>],
) -> Result<(BatchEdit<D, A>, Count), EditFault<D, A>>
    requires least { 1 ≤ B }
    requires changes { are_changes changes.now ≡ true }
    ensures edit { IsApplied D.digest_of B kept.now.uses root changes.now result }
    ensures nodes { HasNodes D.digest_of B kept.now.uses root changes.now result }
    ensures reads { IfOk result
        (λ made. AreReadFor D.digest_of B kept.now.uses root changes.now made.1) }
    ensures most { IfOk result
        (λ made. IsReadAtMost D.digest_of B kept.now.uses root changes.now made.1) }
    ensures fault { IsApplyRefusal D.digest_of B kept.now.uses root changes.now result }
{
    let mut source = kept.lender();
    let edit = edit::apply::<D, B, A, _>(alloc, &mut source, root, changes)?;
    Ok((edit, source.asked))
}
