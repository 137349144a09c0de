//! The worked batch.

ghost use Rattle.std.specs.Prelude.{◌≤◌};

use cid::{Cid, Digest, Sha256};
use event_writing::{Told, UntoldFault, commit_event};
use key_changes::{KeyChange, are_key_changes};
use repo::Core;
use repo_fixtures::batch::{Step, stamped};
use repo_fixtures::cores::apply_made;
use repo_fixtures::ends::Ended;
use std::alloc::{AllocError, Allocator, Global};
use std::process::Abort;
use store::{LentShard, Shard, TableKey};

/// Records.
pub(crate) const A: &[u8] = b"\xa2\x64text\x61A\x65$type\x72app.bsky.feed.post";

pub(crate) const B: &[u8] = b"\xa2\x64text\x61B\x65$type\x72app.bsky.feed.post";

pub(crate) const C: &[u8] = b"\xa2\x64text\x61C\x65$type\x72app.bsky.feed.post";

pub(crate) const D: &[u8] = b"\xa2\x64text\x61D\x65$type\x72app.bsky.feed.post";

pub(crate) const E: &[u8] = b"\xa2\x64text\x61E\x65$type\x72app.bsky.feed.post";

pub(crate) const F: &[u8] = b"\xa2\x64text\x61F\x65$type\x72app.bsky.feed.post";

/// Whose repository it is.
pub(crate) const DID: &[u8] = b"did:plc:ewvi7nxzyoun6zhxrhs64oiz";

/// The revisions of the batches.
pub(crate) const SINCE: &[u8] = b"3jzfcijpj2y2a";

pub(crate) const REV: &[u8] = b"3jzfcijpj2z2a";

/// When messages are sent.
pub(crate) const TIME: &[u8] = b"2024-01-01T00:00:00.000Z";

/// A signature, which nothing tests.
pub(crate) const SIG: &[u8] =
    b"\x00\x01\x02\x03\x04\x05\x06\x07\x08\x09\x0a\x0b\x0c\x0d\x0e\x0f\x10\x11\x12\x13\x14\x15\x16\x17\
    \x18\x19\x1a\x1b\x1c\x1d\x1e\x1f\x20!\x22#$%&'()*+,-./0123456789:;<=>?";

/// The batch before.
pub(crate) const FIRST: [Step<'static>; 4] = [
    Step::Create(b"posts/11", B),
    Step::Create(b"posts/12", D),
    Step::Create(b"posts/14", E),
    Step::Create(b"posts/15", F),
];

/// The worked batch. The record of `posts/14` is put again.
pub(crate) const SECOND: [Step<'static>; 4] = [
    Step::Update(b"posts/12", C),
    Step::Create(b"posts/10", A),
    Step::Delete(b"posts/11"),
    Step::Put(b"posts/14", E),
];

/// A repository.
pub(crate) type Posts<M> = Core<Sha256, 2, M>;

/// One without writes over a shard.
pub(crate) fn opened<R: Abort, G: Digest, const BITS: u8, M: Allocator + Copy>(
    rt: &R,
    alloc: M,
    shard: &mut Shard<G, M>,
) -> Core<G, BITS, M>
    requires least { 1 ≤ BITS }
    requires most { BITS ≤ 8 }
{
    Core::open(alloc, &mut LentShard::new(shard), 0, 10_000).expect(rt, "a core")
}

/// An empty shard.
pub(crate) fn shard<M: Allocator + Copy>(alloc: M) -> Shard<Sha256, M> {
    Shard::new(alloc, 100_000, TableKey::known())
}

/// The root before the worked batch, where the repository takes it and the one before it.
pub(crate) fn filled<G: Digest, const BITS: u8, M: Allocator + Copy>(
    alloc: M,
    shard: &mut Shard<G, M>,
    core: &mut Core<G, BITS, M>,
) -> Option<Cid> {
    let first = apply_made(alloc, shard, core, stamped(alloc, DID, SINCE, &FIRST));
    let before = core.root();
    let second = apply_made(alloc, shard, core, stamped(alloc, DID, REV, &SECOND));
    if first == Ended::Accepted(4) && second == Ended::Accepted(8) {
        Some(before)
    } else {
        None
    }
}

/// A record of eleven bytes more than these zeros, which are 65,536 or more: a map with a byte string.
pub(crate) fn record(alloc: Global, zeros: u32) -> Result<Vec<u8>, AllocError> {
    let mut out = Vec::from_slice(alloc, b"\xa1\x64zero\x5a")?;
    out.extend_from_slice(&zeros.to_be_bytes())?;
    let all = vec![in alloc; 0u8; zeros as usize]?;
    out.extend_from_slice(&all)?;
    Ok(out)
}

/// Keys of three digits in their order.
pub(crate) fn keys(alloc: Global, count: u8) -> Result<Vec<[u8; 9]>, AllocError> {
    let mut keys = Vec::new(alloc);
    for number in 0..count {
        let [a, b, c] = [number / 100, number / 10 % 10, number % 10];
        keys.push([
            b'p',
            b'o',
            b's',
            b't',
            b's',
            b'/',
            b'0' + a,
            b'0' + b,
            b'0' + c,
        ])?;
    }
    Ok(keys)
}

/// The CID of a record, if there is one.
pub(crate) fn value_of(record: Option<&[u8]>) -> Option<Cid> {
    match record {
        Some(record) => Some(Cid::of::<Sha256>(record)),
        None => None,
    }
}

/// A change from one record to another.
pub(crate) fn change<'k>(
    key: &'k [u8],
    before: Option<&[u8]>,
    after: Option<&[u8]>,
) -> KeyChange<'k> {
    KeyChange {
        key,
        before: value_of(before),
        after: value_of(after),
    }
}

/// The changes of the worked batch, of which one changes nothing.
pub(crate) fn changes() -> [KeyChange<'static>; 4] {
    [
        change(b"posts/10", None, Some(A)),
        change(b"posts/11", Some(B), None),
        change(b"posts/12", Some(D), Some(C)),
        change(b"posts/14", Some(E), Some(E)),
    ]
}

/// What is told beside the worked batch.
pub(crate) fn told() -> Told<'static> {
    Told {
        seq: 123,
        time: TIME,
        since: Some(SINCE),
        sig: SIG,
    }
}

/// The message of a repository's last batch. What are no changes is answered as if there were no memory.
pub(crate) fn written<G: Digest, const BITS: u8, M: Allocator + Copy>(
    alloc: M,
    core: &Core<G, BITS, M>,
    before: Cid,
    changes: &[KeyChange<'_>],
    told: &Told<'_>,
) -> Result<Vec<u8, M>, UntoldFault>
    requires { 1 ≤ BITS }
{
    if are_key_changes(changes) {
        commit_event::<G, BITS, M>(alloc, core, before, changes, told)
    } else {
        Err(UntoldFault::NoMemory)
    }
}
