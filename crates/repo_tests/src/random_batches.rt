//! Random batches on two repositories of one store, each beside the list of pairs that its writes leave and the tree from
//! scratch of it.

ghost use Rattle.std.specs.Prelude.{◌≤◌, ◌<◌};

use crate::opened::opened;
use batches::{Stamp, commit_bytes};
use cid::digests::Toy;
use cid::{Cid, Digest, Sha256};
use repo::Core;
use repo_fixtures::batch::Step::{Create, Delete, Put, Update};
use repo_fixtures::batch::{Batch, EMPTY, EMPTY_NODE, Step, batch_at};
use repo_fixtures::cores::{apply, counts, end, held};
use repo_fixtures::ends::Ended::{Accepted, Refused};
use repo_fixtures::ends::{Ended, Why};
use repo_fixtures::trees::is_of;
use std::alloc::{AllocError, Global};
use std::cmp::Ordering;
use std::process::Abort;
use store::{Shard, TableKey};

/// Numbers that look random, the same in each run.
#[derive(Drop)]
struct Numbers {
    state: u64,
}

impl Numbers {
    /// The next number below `bound`.
    fn below(&mut self, bound: usize) -> usize
        requires { 1 ≤ bound }
        ensures { result < bound }
    {
        self.state ^= self.state << 13;
        self.state ^= self.state >> 7;
        self.state ^= self.state << 17;
        (self.state >> 16) as usize % bound
    }
}

/// Keys, whose last digit is their layer under `Toy`.
static KEYS: [&[u8]; 48] = [
    b"k/000", b"k/001", b"k/002", b"k/003", b"k/010", b"k/011", b"k/012", b"k/013", b"k/020",
    b"k/021", b"k/022", b"k/023", b"k/030", b"k/031", b"k/032", b"k/033", b"k/040", b"k/041",
    b"k/042", b"k/043", b"k/050", b"k/051", b"k/052", b"k/053", b"k/060", b"k/061", b"k/062",
    b"k/063", b"k/070", b"k/071", b"k/072", b"k/073", b"k/080", b"k/081", b"k/082", b"k/083",
    b"k/090", b"k/091", b"k/092", b"k/093", b"k/100", b"k/101", b"k/102", b"k/103", b"k/110",
    b"k/111", b"k/112", b"k/113",
];

static RECORDS: [&[u8]; 7] = [
    EMPTY,
    EMPTY_NODE,
    b"\xa1\x61a\x02",
    b"\xa1\x61a\x03",
    b"\xa1\x61a\x04",
    b"\xa1\x61a\x05",
    b"\xa1\x61a\x06",
];

/// Keys in their order, each with the CID of its record.
type Pairs = Vec<(Vec<u8>, Cid)>;

/// The place of a key among the pairs, and whether it is there.
fn place_of(pairs: &Pairs, key: &[u8]) -> (usize, bool) {
    for (place, (other, _)) in pairs.iter().enumerate() {
        match other.as_slice().cmp(key) {
            Ordering::Less => {}
            Ordering::Equal => return (place, true),
            Ordering::Greater => return (place, false),
        }
    }
    (pairs.len(), false)
}

/// A write after these pairs. One in some thirty is of a kind that is refused.
fn random_step(numbers: &mut Numbers, pairs: &Pairs) -> Step<'static> {
    let key = KEYS[numbers.below(48)];
    let record = RECORDS[numbers.below(7)];
    let there = place_of(pairs, key).1 == (numbers.below(16) != 0);
    match (numbers.below(4), there) {
        (0, true) => Delete(key),
        (1, true) => Update(key, record),
        (2, false) => Create(key, record),
        _ => Put(key, record),
    }
}

/// Does a write to the pairs, or tells why it is refused.
fn write_pairs<D: Digest>(
    alloc: Global,
    pairs: &mut Pairs,
    step: Step<'static>,
) -> Result<Option<Why>, AllocError> {
    let (Put(key, _) | Create(key, _) | Update(key, _) | Delete(key)) = step;
    let (place, there) = place_of(pairs, key);
    match step {
        Create(_, _) if there => return Ok(Some(Why::KeyExists)),
        Update(_, _) | Delete(_) if !there => return Ok(Some(Why::NoSuchKey)),
        _ => {}
    }
    if there && place < pairs.len() {
        pairs.remove(place);
    }
    if let Put(_, record) | Create(_, record) | Update(_, record) = step
        && place <= pairs.len()
    {
        let key = Vec::from_slice(alloc, key)?;
        pairs.insert(place, (key, Cid::of::<D>(record)))?;
    }
    Ok(None)
}

/// A batch, how it ends where the store has room for it, and the pairs after those of its writes that come before a refused
/// one.
#[derive(Drop)]
struct Drawn {
    steps: Vec<Step<'static>>,
    ended: Ended,
    pairs: Pairs,
}

impl Drawn {
    /// Adds a write to the batch, at this place.
    fn add<D: Digest>(
        &mut self,
        alloc: Global,
        place: usize,
        step: Step<'static>,
    ) -> Result<(), AllocError> {
        self.steps.push(step)?;
        if let Accepted(count) = self.ended {
            self.ended = match write_pairs::<D>(alloc, &mut self.pairs, step)? {
                Some(why) => Refused(place, why),
                None => Accepted(count.saturating_add(1)),
            };
        }
        Ok(())
    }
}

/// A batch of 1 to 20 writes after these pairs and so many writes.
fn draw<D: Digest>(
    alloc: Global,
    numbers: &mut Numbers,
    pairs: &Pairs,
    number: u64,
) -> Result<Drawn, AllocError> {
    let mut drawn = Drawn {
        steps: Vec::new(alloc),
        ended: Accepted(number),
        pairs: pairs.clone()?,
    };
    for place in 0..=numbers.below(20) {
        let step = random_step(numbers, &drawn.pairs);
        drawn.add::<D>(alloc, place, step)?;
    }
    Ok(drawn)
}

/// Whether a batch may end so: as it was drawn or, where no test refuses it, at its last write since a small store is full.
fn may_end(drawn: &Drawn, ended: Ended, is_small: bool) -> bool {
    match (ended, drawn.ended) {
        (Refused(place, Why::StoreFull), Accepted(_)) => {
            is_small && place.saturating_add(1) == drawn.steps.len()
        }
        _ => ended == drawn.ended,
    }
}

/// The CID of a commit.
fn commit_of<D: Digest>(alloc: Global, stamp: &Stamp, root: Cid) -> Option<Cid> {
    match commit_bytes(alloc, stamp, root) {
        Ok(bytes) => Some(Cid::of::<D>(&bytes)),
        Err(_) => None,
    }
}

/// A repository, and the pairs that its writes leave.
struct Side<D: Digest, const B: u8> {
    core: Core<D, B>,
    pairs: Pairs,
}

impl<D: Digest, const B: u8> Side<D, B> {
    /// A repository without writes.
    fn open<R: Abort>(rt: &R, alloc: Global, shard: &mut Shard<D>, me: u32) -> Side<D, B>
        requires least { 1 ≤ B }
        requires most { B ≤ 8 }
        requires small { me < 1024 }
    {
        Side {
            core: opened(rt, alloc, shard, me),
            pairs: Vec::new(alloc),
        }
    }

    /// Whether a drawn batch ends as it may, and leaves its pairs and its commit where it is accepted.
    fn takes(
        &mut self,
        alloc: Global,
        shard: &mut Shard<D>,
        drawn: Drawn,
        batch: &Batch<Global>,
        is_small: bool,
    ) -> bool
        requires least { 1 ≤ B }
        requires most { B ≤ 8 }
    {
        let mut commit = self.core.commit();
        let ended = apply(alloc, shard, &mut self.core, batch);
        if !may_end(&drawn, ended, is_small) {
            return false;
        }
        if matches!(ended, Accepted(_)) {
            let Drawn { pairs, .. } = drawn;
            self.pairs = pairs;
            commit = commit_of::<D>(alloc, &batch.stamp, self.core.root());
        }
        is_of(alloc, &self.core, &self.pairs, commit)
    }

    /// The same for the next batch; it isn't so where there was no memory for the batch.
    fn takes_next(
        &mut self,
        alloc: Global,
        shard: &mut Shard<D>,
        numbers: &mut Numbers,
        turn: u16,
        is_small: bool,
    ) -> bool
        requires least { 1 ≤ B }
        requires most { B ≤ 8 }
    {
        let Ok(drawn) = draw::<D>(alloc, numbers, &self.pairs, self.core.number()) else {
            return false;
        };
        match batch_at(alloc, turn, &drawn.steps) {
            Ok(batch) => self.takes(alloc, shard, drawn, &batch, is_small),
            Err(_) => false,
        }
    }

    /// Gives the blocks back.
    fn end(self, shard: &mut Shard<D>) {
        let Side { core, pairs: _ } = self;
        end(shard, core);
    }
}

/// Whether the store has the blocks of both cores and no others.
fn has_both<D: Digest, const B: u8>(
    shard: &Shard<D>,
    first: &Core<D, B>,
    second: &Core<D, B>,
) -> bool {
    match (held(shard, first), held(shard, second)) {
        (Some(ones), Some(others)) => counts(shard).1 == ones.saturating_add(others),
        _ => false,
    }
}

/// Whether each of a hundred random batches on each of two repositories leaves what it is to, and some are accepted.
fn take_all<D: Digest, const B: u8>(
    alloc: Global,
    seed: u64,
    shard: &mut Shard<D>,
    first: &mut Side<D, B>,
    second: &mut Side<D, B>,
    is_small: bool,
) -> bool
    requires least { 1 ≤ B }
    requires most { B ≤ 8 }
{
    let mut numbers = Numbers { state: seed };
    for turn in 0..100u16 {
        if !first.takes_next(alloc, shard, &mut numbers, turn, is_small)
            || !has_both(shard, &first.core, &second.core)
            || !second.takes_next(alloc, shard, &mut numbers, turn, is_small)
            || !has_both(shard, &first.core, &second.core)
        {
            return false;
        }
    }
    first.core.number() > 0 && second.core.number() > 0
}

/// Whether this is so in a store with so much room, and its blocks are all given back.
fn agrees_from<R: Abort, D: Digest, const B: u8>(
    rt: &R,
    alloc: Global,
    seed: u64,
    room: usize,
) -> bool
    requires least { 1 ≤ B }
    requires most { B ≤ 8 }
    requires least_room { 1 ≤ room }
    requires most_room { room ≤ 1000 }
{
    let mut shard: Shard<D> = Shard::new(alloc, room, TableKey::known());
    let mut first: Side<D, B> = Side::open(rt, alloc, &mut shard, 0);
    let mut second: Side<D, B> = Side::open(rt, alloc, &mut shard, 1);
    let is_right = take_all(alloc, seed, &mut shard, &mut first, &mut second, room < 100);
    first.end(&mut shard);
    second.end(&mut shard);
    is_right && counts(&shard) == (0, 0)
}

/// Whether this is so from two numbers on.
fn agrees<R: Abort, D: Digest, const B: u8>(rt: &R, alloc: Global, room: usize) -> bool
    requires least { 1 ≤ B }
    requires most { B ≤ 8 }
    requires least_room { 1 ≤ room }
    requires most_room { room ≤ 1000 }
{
    agrees_from::<R, D, B>(rt, alloc, 1, room) && agrees_from::<R, D, B>(rt, alloc, 2, room)
}

#[test]
fn under_the_toy_digest(rt: HostRuntime) {
    assert!(rt; agrees::<_, Toy, 1>(&rt, rt.alloc(), 1000));
    assert!(rt; agrees::<_, Toy, 2>(&rt, rt.alloc(), 1000));
    assert!(rt; agrees::<_, Toy, 8>(&rt, rt.alloc(), 1000));
}

#[test]
fn under_sha_256(rt: HostRuntime) {
    assert!(rt; agrees::<_, Sha256, 1>(&rt, rt.alloc(), 1000));
    assert!(rt; agrees::<_, Sha256, 2>(&rt, rt.alloc(), 1000));
    assert!(rt; agrees::<_, Sha256, 8>(&rt, rt.alloc(), 1000));
}

#[test]
fn in_a_small_store(rt: HostRuntime) {
    assert!(rt; agrees::<_, Toy, 2>(&rt, rt.alloc(), 30));
}
