//! How many of each a host has.

/// How many of each a host has.
#[derive(Clone, Copy, Debug)]
pub struct Limits {
    /// Repositories, 1 to 1,024.
    pub repos: u32,
    /// Writers, 1 to 64.
    pub writers: u32,
    /// Notices that the queue has room for, 1 to 65,536.
    pub queue: usize,
    /// Blocks that each of the sixteen shards may have, 1 to 1,048,576.
    pub shard_blocks: usize,
    /// Writes that each repository may have accepted, 1 to 1,048,576.
    pub repo_writes: usize,
}
