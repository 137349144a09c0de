//! An entry as its bytes show it.

use cid::CidRef;

/// An entry of a node, lent by the node's block: what its key has in common with the key before, and what follows.
///
/// A view or an entry cannot outlive its block:
///
/// ```compile_fail
/// let entry = {
///     let block = writer.finish()?;
///     NodeView::parse(&block)?.entries().next()
/// };
/// // error[borrow-e0597]: `block` does not live long enough
/// ```
#[derive(Clone, Copy, Debug)]
pub struct EntryView<'a> {
    /// How many bytes the key has in common with the key of the entry before; 0 in the first entry.
    pub prefix: usize,
    /// The other bytes of the key.
    pub suffix: &'a [u8],
    /// The record's CID.
    pub value: CidRef<'a>,
    /// The subtree of the keys between this one and the next.
    pub tree: Option<CidRef<'a>>,
}
