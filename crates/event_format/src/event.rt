//! A message, as its bytes say it.

use cid::CidRef;
use key_changes::KeyChange;
use std::alloc::Allocator;

/// The first value of each such message: the map of `t`, the message's type, and `op`, 1 for a message that is no error (AT
/// Protocol, event streams). DAG-CBOR has one spelling for it, so a message begins with these bytes or is another one.
pub const HEADER: &[u8] = b"\xa2\x61t\x67#commit\x62op\x01";

/// What a message says. Nothing of it is believed.
#[derive(Drop)]
pub struct Event<'a, A: Allocator> {
    /// Its number in the stream.
    pub seq: u64,
    /// Whose repository it is.
    pub did: &'a [u8],
    /// The CID of the signed commit.
    pub commit: CidRef<'a>,
    /// The revision of the batch.
    pub rev: &'a [u8],
    /// The revision of the batch before, if there was one.
    pub since: Option<&'a [u8]>,
    /// A CAR file.
    pub blocks: &'a [u8],
    /// What each key had and has, in the order of the message: a create has nothing before, a delete nothing after.
    pub ops: Vec<KeyChange<'a>, A>,
    /// When it was sent first.
    pub time: &'a [u8],
    /// The root of the tree before the batch.
    pub before: CidRef<'a>,
}
