//! The pairs from a key on.

ghost use Rattle.std.specs.Prelude.{◌≡◌, suc, option_map, ℕ, List, Option, IfOk, OnOk, ◌≤◌, ◌+◌, ◌*◌, [], Some, length};
ghost use Rattle.cid.specs.CidRef.{bytes_of};
ghost use Rattle.edit_laws.specs.Sources.{start_shape, later_shape, down_from, walk_from};
ghost use Rattle.lookups.specs.Walks.{IsPlain, stacked, nodes_walked, pairs_given, asked_walk, is_next};
ghost use Rattle.rows.specs.Entries.{shape_at, shape_of};
ghost use Rattle.spec.specs.NodeFormat.{first_link};
ghost use Rattle.spec.specs.Blocks.{listed};
ghost use Rattle.lookups.specs.Steps.{layers, asked_from, shows};
ghost use Rattle.lookups.specs.Trees.{OfTree, OfTreeIn};

use crate::lookups::layers;
use crate::nodes::Shows;
use crate::source::Source;
use block::Block;
use cid::{Cid, CidRef, Digest};
use node::{KeyBuf, NodeView};
use rows::{KeyedEntries, to_cid};
use std::alloc::{AllocError, Allocator};
use std::cmp::Ordering;
use std::sync::Arc;

/// The node with a CID, for one of the reads that are left. It is `None` where none is left, where the source doesn't have
/// the block, and where that is no node.
pub(crate) fn node_of<'a, T: Shows<'a>, S: Source<T>>(
    src: &mut S,
    cid: &Cid,
    left: &mut u128,
) -> Option<NodeView<'a>>
    ensures shown { 1 ≤ left.old
        → option_map shape_of result ≡ shows T.bytes (S.gives src.old) cid.now }
    ensures counted { 1 ≤ left.old → S.reads src.new ≡ suc (S.reads src.old) }
    ensures bounded { S.reads src.new + left.new ≡ S.reads src.old + left.old }
    ensures same { S.gives src.new ≡ S.gives src.old }
{
    if *left == 0 {
        return None;
    }
    *left -= 1;
    src.get(cid)?.as_node()
}

/// Goes to the first pair of a node that isn't below a key. It answers the link to go down from before that pair, which is
/// none where the key is the pair's own, and the pair's value; or the last link, where all pairs are below the key.
pub(crate) fn first_from<'a, A: Allocator>(
    rows: &mut KeyedEntries<'a, A>,
    from: &[u8],
) -> (Option<CidRef<'a>>, Option<CidRef<'a>>)
    ensures { start_shape from.now rows.old.rest ≡ shape_at (option_map bytes_of result.0)
        (option_map bytes_of result.1) rows.new }
{
    'rows: loop {
        let link = rows.link();
        let Some(value) = rows.next() else {
            return (link, None);
        };
        match rows.key().cmp(from) {
            Ordering::Less => {}
            Ordering::Equal => return (None, Some(value)),
            Ordering::Greater => return (link, Some(value)),
        }
    }
}

/// A pair that is still to come: its value, and what is left of its node after it, which also has its key.
#[derive(Drop)]
pub(crate) struct Frame<'a, A: Allocator> {
    pub(crate) value: CidRef<'a>,
    pub(crate) rest: KeyedEntries<'a, A>,
}

/// Puts the pair with this value, if there is one, on the stack, with what is left of its node after it.
pub(crate) fn put_on<'a, A: Allocator>(
    stack: &mut Vec<Frame<'a, A>, A>,
    value: Option<CidRef<'a>>,
    rest: KeyedEntries<'a, A>,
) -> Result<(), AllocError>
    ensures { OnOk result ((link : Option (List ℕ)) → stacked stack.new.items ≡ later_shape
        (shape_at link (option_map bytes_of value.entry) rest.entry) (stacked stack.old.items)) }
{
    if let Some(value) = value {
        stack.push(Frame { value, rest })?;
    }
    Ok(())
}

/// Goes on with what is left of a node: the link to go down from, and then the next pair, which is put on the stack.
pub(crate) fn go_on<'a, A: Allocator>(
    stack: &mut Vec<Frame<'a, A>, A>,
    mut rest: KeyedEntries<'a, A>,
) -> Result<Option<Cid>, AllocError>
    ensures link { IfOk result (λ link. link ≡ first_link rest.entry.rest) }
    ensures stack { OnOk result
        (stacked stack.new.items ≡ later_shape rest.entry.rest (stacked stack.old.items)) }
{
    let link = to_cid(rest.link());
    let value = rest.next();
    put_on(stack, value, rest)?;
    Ok(link)
}

/// The first `limit` pairs from a key on in the tree with this root, in the order of their keys. To go on, walk again from
/// the last key that was given, with one byte 0 after it: no key stands between the two.
///
/// It reads the nodes whose open range of keys meets the range from `from` to the last key that it gives, or to `from`
/// itself where it gives none, each once; and none with a limit of 0. It holds one node open for each layer at most, with
/// room for one key each. `B` is the number of zero bits of a digest that count for one layer, at least 1 (AT Protocol
/// repository v3, MST structure).
///
/// The source has all nodes of the tree. Where it lacks one, gives what is no node, or has keys that don't ascend, this ends
/// with the pairs so far; in any case it reads no more than `256 / B + 1` blocks for each pair of the limit. `AllocError`
/// comes where memory was refused.
pub fn walk<
    'a,
    D: Digest + 'a,
    const B: u8,
    A: Allocator + Clone + 'a,
    S: Source<&'a Arc<Block<D, A>, A>>,
>(
    alloc: A,
    src: &mut S,
    root: Cid,
    from: &[u8],
    limit: usize,
) -> Result<Vec<(Vec<u8, A>, Cid), A>, AllocError>
    requires { 1 ≤ B }
    ensures pairs { OfTree D.digest_of B (S.gives src.old) root
        (λ es. IfOk result (λ pairs. pairs_given pairs.items ≡ listed from.now limit es)) }
    ensures reads { OfTree D.digest_of B (S.gives src.old) root
        (λ es. OnOk result (S.reads src.new ≡ S.reads src.old + length
        (nodes_walked D.digest_of B from.now limit es))) }
    ensures most { S.reads src.new ≤ S.reads src.old + limit * layers B }
    ensures same { S.gives src.new ≡ S.gives src.old }
{
    let most = layers::<B>();
    walk_within(alloc, src, root, from, limit, most, most_reads(limit, most))
}

/// The same walk over whatever shows nodes, in at most so many reads, for a source that isn't trusted: a file that somebody
/// made may have nodes that are linked in any way.
///
/// Where the source has the tree, and the walk takes no more reads, the answer is that of `walk`. Else it ends with the pairs
/// so far, and so also where a node is missing or is none, or where keys don't ascend: then a node whose pairs were given is
/// not gone through again. `AllocError` comes where memory was refused.
pub fn walk_in_reads<'a, D: Digest, const B: u8, T: Shows<'a>, A: Allocator + Clone, S: Source<T>>(
    alloc: A,
    src: &mut S,
    root: Cid,
    from: &[u8],
    limit: usize,
    reads: usize,
) -> Result<Vec<(Vec<u8, A>, Cid), A>, AllocError>
    requires { 1 ≤ B }
    ensures pairs { OfTreeIn T.bytes D.digest_of B (S.gives src.old) root
        (λ es. length (nodes_walked D.digest_of B from.now limit es) ≤ reads
        → IfOk result (λ pairs. pairs_given pairs.items ≡ listed from.now limit es)) }
    ensures reads { OfTreeIn T.bytes D.digest_of B (S.gives src.old) root
        (λ es. length (nodes_walked D.digest_of B from.now limit es) ≤ reads
        → OnOk result (S.reads src.new ≡ S.reads src.old + length
        (nodes_walked D.digest_of B from.now limit es))) }
    ensures most { S.reads src.new ≤ S.reads src.old + reads }
    ensures same { S.gives src.new ≡ S.gives src.old }
{
    walk_within(alloc, src, root, from, limit, layers::<B>(), reads as u128)
}

/// How many reads so many pairs take at most, where each way down passes `most` nodes.
fn most_reads(limit: usize, most: u16) -> u128
    ensures { result ≡ limit * most }
{
    limit as u128 * most as u128
}

/// The walk, where each way down passes `most` nodes at most, in at most so many reads.
fn walk_within<'a, T: Shows<'a>, A: Allocator + Clone, S: Source<T>>(
    alloc: A,
    src: &mut S,
    root: Cid,
    from: &[u8],
    limit: usize,
    most: u16,
    reads: u128,
) -> Result<Vec<(Vec<u8, A>, Cid), A>, AllocError>
    ensures pairs { IsPlain (shows T.bytes (S.gives src.old)) limit most from.now (Some root) reads
        → IfOk result (λ pairs. pairs_given pairs.items ≡ walk_from
        (shows T.bytes (S.gives src.old)) limit most from.now (Some root) []) }
    ensures reads { IsPlain (shows T.bytes (S.gives src.old)) limit most from.now (Some root) reads
        → OnOk result (S.reads src.new ≡ S.reads src.old + asked_walk
        (shows T.bytes (S.gives src.old)) limit most from.now (Some root) []) }
    ensures most { S.reads src.new ≤ S.reads src.old + reads }
    ensures same { S.gives src.new ≡ S.gives src.old }
{
    let mut pairs = Vec::new(alloc.clone()?);
    let mut stack = Vec::new(alloc);
    let mut link = Some(root);
    let mut left = reads;
    let mut remaining = limit;
    while remaining > 0 {
        remaining -= 1;
        down(src, &mut stack, link, from, most, &mut left)?;
        let Some(next) = stack.pop() else {
            return Ok(pairs);
        };
        if !is_next(&pairs, next.rest.key()) {
            return Ok(pairs);
        }
        let key = Vec::from_slice(stack.allocator().clone()?, next.rest.key())?;
        pairs.push((key, next.value.to_cid()))?;
        link = go_on(&mut stack, next.rest)?;
    }
    Ok(pairs)
}

/// Whether a key is greater than that of the last pair.
fn is_next<A: Allocator>(pairs: &[(Vec<u8, A>, Cid)], key: &[u8]) -> bool
    ensures { result ≡ is_next (pairs_given pairs.now) key.now }
{
    match pairs.last() {
        Some((last, _)) => last.as_slice().cmp(key).is_lt(),
        None => true,
    }
}

/// Goes down to the first pair from a link on that isn't below a key, over `most` nodes at most. Where a block is missing,
/// or is no node, or no read is left for it, nothing is to come any more.
fn down<'a, T: Shows<'a>, A: Allocator + Clone, S: Source<T>>(
    src: &mut S,
    stack: &mut Vec<Frame<'a, A>, A>,
    link: Option<Cid>,
    from: &[u8],
    most: u16,
    left: &mut u128,
) -> Result<(), AllocError>
    ensures stack { asked_from (shows T.bytes (S.gives src.old)) most from.now link ≤ left.old
        → OnOk result (stacked stack.new.items ≡ down_from (shows T.bytes (S.gives src.old))
        most from.now link (stacked stack.old.items)) }
    ensures reads { asked_from (shows T.bytes (S.gives src.old)) most from.now link ≤ left.old
        → OnOk result (S.reads src.new ≡ S.reads src.old + asked_from
        (shows T.bytes (S.gives src.old)) most from.now link) }
    ensures bounded { S.reads src.new + left.new ≡ S.reads src.old + left.old }
    ensures same { S.gives src.new ≡ S.gives src.old }
{
    let mut next = link;
    let mut remaining = most;
    while remaining > 0 {
        remaining -= 1;
        let Some(cid) = next else {
            return Ok(());
        };
        let Some(view) = node_of(src, &cid, left) else {
            stack.clear();
            return Ok(());
        };
        let mut rows = KeyedEntries::of(&view, KeyBuf::new(stack.allocator().clone()?)?);
        let (link, value) = first_from(&mut rows, from);
        put_on(stack, value, rows)?;
        next = to_cid(link);
    }
    Ok(())
}
