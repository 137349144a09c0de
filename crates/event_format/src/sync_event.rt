//! A message of a state, as its bytes say it.

/// The first value of each message `#sync`: the map of `t`, the message's type, and `op`, 1 for a message that is no error.
pub const SYNC_HEADER: &[u8] = b"\xa2\x61t\x65#sync\x62op\x01";

/// How many bytes the CAR file of a message `#sync` may have (the lexicon `com.atproto.sync.subscribeRepos`).
pub const MOST_SYNC_BYTES: usize = 10_000;

/// What a message `#sync` says: in which state a repository is.
#[derive(Clone, Copy, Debug)]
pub struct SyncEvent<'a> {
    /// Its number in the stream.
    pub seq: u64,
    /// Whose repository it is.
    pub did: &'a [u8],
    /// A CAR file, whose root is the signed commit and whose only block that is.
    pub blocks: &'a [u8],
    /// The revision of the commit.
    pub rev: &'a [u8],
    /// When it was sent first.
    pub time: &'a [u8],
}
