use cid::Cid;

/// What an accepted batch leaves.
#[derive(Debug, Clone, Copy)]
pub struct Applied {
    /// How many writes are accepted in all.
    pub number: u64,
    /// The root of the tree.
    pub root: Cid,
    /// The root of the tree before the batch.
    pub previous: Cid,
    /// The CID of the batch's commit.
    pub commit: Cid,
}
