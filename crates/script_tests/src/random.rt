//! Random lines of four workers in eight repositories, and what the closed host then has.

ghost use Rattle.std.specs.Prelude.{◌≤◌, ◌<◌};

use crate::closes::{Ran, limits, run};
use crate::tables::{Doing, line_of};
use batches::{Write, commit_bytes};
use cid::digests::Toy;
use cid::{Cid, Digest};
use closing::Closed;
use repo::Core;
use repo_fixtures::batch::Step::{Delete, Put};
use repo_fixtures::batch::{EMPTY, EMPTY_NODE, ONE, TWO};
use repo_fixtures::trees::is_of;
use scripts::{Answer, Line, OpenGate};
use std::alloc::{AllocError, Global};
use std::cmp::Ordering;
use std::process::Abort;
use std::sync::{Arc, Wait};
use std::thread::Threads;

/// Numbers that look random, the same in each run.
#[derive(Drop)]
struct Numbers {
    state: u64,
}

impl Numbers {
    /// The next number below `bound`.
    fn below(&mut self, bound: u32) -> u32
        requires { 1 ≤ bound }
        ensures { result < bound }
    {
        self.state ^= self.state << 13;
        self.state ^= self.state >> 7;
        self.state ^= self.state << 17;
        (self.state >> 32) as u32 % bound
    }
}

/// Keys, whose last digit is their layer under `Toy`.
static KEYS: [&[u8]; 16] = [
    b"k/000", b"k/001", b"k/002", b"k/003", b"k/010", b"k/011", b"k/012", b"k/013", b"k/020",
    b"k/021", b"k/022", b"k/023", b"k/030", b"k/031", b"k/032", b"k/033",
];

static RECORDS: [&[u8]; 4] = [EMPTY, EMPTY_NODE, ONE, TWO];

/// A random line. Three of four are in a repository where no other worker has such lines.
fn random_line(alloc: Global, numbers: &mut Numbers, number: usize) -> Result<Line, AllocError> {
    let worker = numbers.below(4);
    let repo = match numbers.below(4) {
        0 => numbers.below(8),
        _ => worker + 4 * numbers.below(2),
    };
    let key = KEYS[numbers.below(16) as usize];
    let record = RECORDS[numbers.below(4) as usize];
    match numbers.below(8) {
        0 => line_of(alloc, number, (worker, repo, Doing::Get(key))),
        1 | 2 => line_of(alloc, number, (worker, repo, Doing::Apply(&[Delete(key)]))),
        _ => line_of(
            alloc,
            number,
            (worker, repo, Doing::Apply(&[Put(key, record)])),
        ),
    }
}

/// So many random lines, the same for the same seed, which is no 0.
fn random_lines(alloc: Global, seed: u64, count: u16) -> Result<Vec<Line>, AllocError> {
    let mut numbers = Numbers { state: seed };
    let mut lines = Vec::with_capacity(alloc, usize::from(count))?;
    for number in 1..=usize::from(count) {
        lines.push(random_line(alloc, &mut numbers, number)?)?;
    }
    Ok(lines)
}

/// Keys in their order, each with the CID of its record.
type Pairs = Vec<(Vec<u8>, Cid)>;

/// The place of a key among the pairs, and whether it is there.
fn place_of(pairs: &Pairs, key: &[u8]) -> (usize, bool) {
    for (place, (other, _)) in pairs.iter().enumerate() {
        match other.as_slice().cmp(key) {
            Ordering::Less => {}
            Ordering::Equal => return (place, true),
            Ordering::Greater => return (place, false),
        }
    }
    (pairs.len(), false)
}

/// Does a write to the pairs.
fn write_pairs(alloc: Global, pairs: &mut Pairs, write: &Write) -> Result<(), AllocError> {
    let (place, there) = place_of(pairs, write.key());
    if there && place < pairs.len() {
        pairs.remove(place);
    }
    if let Some(record) = write.record()
        && place <= pairs.len()
    {
        let key = Vec::from_slice(alloc, write.key())?;
        pairs.insert(place, (key, Cid::of::<Toy>(record)))?;
    }
    Ok(())
}

/// The pairs that these writes leave.
fn pairs_after(alloc: Global, writes: &[Arc<Write>]) -> Result<Pairs, AllocError> {
    let mut pairs = Vec::new(alloc);
    for write in writes {
        write_pairs(alloc, &mut pairs, write)?;
    }
    Ok(pairs)
}

/// The CID of the commit of the last stamp.
fn commit_of(alloc: Global, core: &Core<Toy, 2>) -> Result<Option<Cid>, AllocError> {
    match core.stamps().last() {
        Some((stamp, _)) => {
            let bytes = commit_bytes(alloc, stamp, core.root())?;
            Ok(Some(Cid::of::<Toy>(&bytes)))
        }
        None => Ok(None),
    }
}

/// Whether a core is what its accepted writes and its last stamp leave.
fn is_from_scratch(alloc: Global, core: &Core<Toy, 2>) -> bool {
    match (pairs_after(alloc, core.accepted()), commit_of(alloc, core)) {
        (Ok(pairs), Ok(commit)) => is_of(alloc, core, &pairs, commit),
        _ => false,
    }
}

/// The CIDs of the blocks of all cores, in order, and as often as there are cores with each.
fn all_cids(alloc: Global, cores: &[Core<Toy, 2>]) -> Result<Vec<Cid>, AllocError> {
    let mut cids = Vec::new(alloc);
    for core in cores {
        for block in core.blocks() {
            cids.push(block.cid())?;
        }
    }
    cids.sort()?;
    Ok(cids)
}

/// Whether the counts say how often each CID is there.
fn are_counts(counts: &[(Cid, u64)], cids: &[Cid]) -> bool {
    let mut place = 0usize;
    for (cid, count) in counts {
        for _ in 0..*count {
            if cids.get(place) != Some(cid) {
                return false;
            }
            place = place.saturating_add(1);
        }
    }
    place == cids.len()
}

/// Whether a closed host's counts are those of a plain count over its cores.
fn has_plain_counts(alloc: Global, closed: &Closed<Toy, 2>) -> bool {
    match (closed.counts(alloc), all_cids(alloc, closed.cores())) {
        (Ok(counts), Ok(cids)) => are_counts(&counts, &cids),
        _ => false,
    }
}

/// How many answers say that a batch was accepted.
fn accepted_in(answers: &[Answer<Toy>]) -> u64 {
    let mut accepted = 0u64;
    for answer in answers {
        if matches!(answer, Answer::Accepted(_)) {
            accepted = accepted.saturating_add(1);
        }
    }
    accepted
}

/// Whether each core is from scratch, and all have so many accepted writes. Whichever worker is ahead has the latest stamps, so
/// that its batches aren't refused for these: some are accepted in any order of the threads.
fn are_from_scratch(alloc: Global, cores: &[Core<Toy, 2>], accepted: u64, lines: u64) -> bool {
    let mut number = 0u64;
    for core in cores {
        if !is_from_scratch(alloc, core) {
            return false;
        }
        number = number.saturating_add(core.number());
    }
    number == accepted && accepted > lines / 16
}

/// Whether the host is as it should be after a script of so many random lines.
fn agrees<R: Threads + Wait + Abort + Sync>(rt: &R, alloc: Global, seed: u64, count: u16) -> bool {
    let lines = random_lines(alloc, seed, count).expect(rt, "lines");
    let Ran { answers, closed } = run(rt, alloc, limits(8, 4, 100), &OpenGate, &lines);
    let accepted = accepted_in(&answers);
    are_from_scratch(alloc, closed.cores(), accepted, u64::from(count))
        && has_plain_counts(alloc, &closed)
}

#[test]
fn random_lines_by_four_workers(rt: HostRuntime) {
    assert!(rt; agrees(&rt, rt.alloc(), 88_172_645, 10_000));
}

#[test]
fn many_small_scripts(rt: HostRuntime) {
    for seed in 1..=20u64 {
        assert!(rt;
            agrees(&rt, rt.alloc(), 88_172_645 * seed, 200),
            "seed {seed}"
        );
    }
}
