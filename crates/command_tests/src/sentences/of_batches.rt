//! What is said of a batch that is refused, and of blocks that clash or find no room.
use crate::sentences::explained::is_explained;
use batches::{RefusalName, RepoFault};
use block::{Block, Collided};
use cid::Sha256;
use cid::digests::Clash;
use dagcbor::CborFault;
use edit::EditFault;
use scratch::ScratchFault;
use std::alloc::{AllocError, Global};
use std::process::Abort;
use std::sync::Arc;
use store::StoreFault;

#[test]
fn refusals_of_a_batch(rt: HostRuntime) {
    let rows: [(RepoFault<Sha256>, &'static str, &'static str); 12] = [
        (
            RepoFault::BadKey,
            "BadKey",
            "the key is not that of a record",
        ),
        (RepoFault::NotAMap, "NotAMap", "the record is not a map"),
        (
            RepoFault::RecordSize,
            "RecordSize",
            "the record is too long",
        ),
        (
            RepoFault::KeyExists,
            "KeyExists",
            "the key is there already",
        ),
        (RepoFault::NoSuchKey, "NoSuchKey", "there is no such key"),
        (
            RepoFault::WritesFull,
            "WritesFull",
            "the repository takes no more writes",
        ),
        (RepoFault::StoreFull, "StoreFull", "the store is full"),
        (RepoFault::NoMemory, "NoMemory", "out of memory"),
        (RepoFault::EmptyBatch, "EmptyBatch", "the batch is empty"),
        (RepoFault::BadDid, "BadDid", "the DID is not one"),
        (
            RepoFault::BadRev,
            "BadRev",
            "the revision is not a timestamp identifier",
        ),
        (
            RepoFault::RevOrder,
            "RevOrder",
            "the revision is not after the last one",
        ),
    ];
    for (fault, name, sentence) in &rows {
        let told = format!(in rt.alloc(); "{fault}").expect(&rt, "memory");
        let named = format!(in rt.alloc(); "{}", RefusalName(fault)).expect(&rt, "memory");
        assert!(rt;
            told.as_str() == *sentence && named.as_str() == *name,
            "{named}: {told}"
        );
        assert!(rt; is_explained(*name, *sentence), "{named}");
    }
}

/// A block of these bytes, which all have one CID.
fn block<R: Abort>(rt: &R, alloc: Global, bytes: &[u8]) -> Arc<Block<Clash>> {
    let bytes = Vec::from_slice(alloc, bytes).expect(rt, "memory");
    Arc::new(alloc, Block::of(bytes)).expect(rt, "memory")
}

/// Two blocks that clash.
fn pair<R: Abort>(rt: &R, alloc: Global) -> Collided<Clash> {
    let (one, other) = (block(rt, alloc, b"one"), block(rt, alloc, b"other"));
    assert!(rt; one.cid() == other.cid() && one.bytes() != other.bytes());
    Collided::new(one, other)
}

/// What the faults of two blocks say: of a batch, its name first, of a tree from scratch, of an edit and of a store.
fn told_of_clashes<R: Abort>(rt: &R, alloc: Global) -> Result<[String; 5], AllocError> {
    let batch = RepoFault::Collision(pair(rt, alloc));
    let tree = ScratchFault::Clash(pair(rt, alloc));
    let edit = EditFault::Clash(pair(rt, alloc));
    let store = StoreFault::Collision(pair(rt, alloc));
    Ok([
        format!(in alloc; "{}", RefusalName(&batch))?,
        format!(in alloc; "{batch}")?,
        format!(in alloc; "{tree}")?,
        format!(in alloc; "{edit}")?,
        format!(in alloc; "{store}")?,
    ])
}

#[test]
fn faults_of_two_blocks(rt: HostRuntime) {
    let wanted = [
        "Collision",
        "two different blocks have one CID",
        "two different nodes have one CID",
        "two different blocks have one CID",
        "other bytes are held under the CID of the block",
    ];
    let told = told_of_clashes(&rt, rt.alloc()).expect(&rt, "memory");
    for (told, wanted) in told.iter().zip(&wanted) {
        assert!(rt; told.as_str() == *wanted, "{told}");
    }
    assert!(rt; is_explained("Collision", "two different blocks have one CID"));
    assert!(rt; is_explained("Clash", "two different nodes have one CID"));
}

#[test]
fn faults_without_more_words(rt: HostRuntime) {
    let full: StoreFault<Sha256> = StoreFault::Full;
    let store: StoreFault<Sha256> = StoreFault::NoMemory;
    let tree: ScratchFault<Sha256> = ScratchFault::NoMemory;
    let record: RepoFault<Sha256> = RepoFault::BadRecord(CborFault::Float);
    let rows = [
        (
            format!(in rt.alloc(); "{full}").expect(&rt, "memory"),
            "the shard is full",
        ),
        (
            format!(in rt.alloc(); "{store}").expect(&rt, "memory"),
            "out of memory",
        ),
        (
            format!(in rt.alloc(); "{tree}").expect(&rt, "memory"),
            "out of memory",
        ),
        (
            format!(in rt.alloc(); "{record}").expect(&rt, "memory"),
            "the record is not DAG-CBOR",
        ),
    ];
    for (told, sentence) in &rows {
        assert!(rt; told.as_str() == *sentence, "{told}");
    }
}
