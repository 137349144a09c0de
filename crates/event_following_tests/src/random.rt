//! Random batches of one repository, each told, and followed by a mirror.

ghost use Rattle.std.specs.Prelude.{◌≤◌, ◌<◌};

use crate::fixtures::{A, B, Posts, followed, message_of, opened, shard, value_of};
use cid::{Cid, Sha256};
use key_changes::KeyChange;
use repo_fixtures::batch::Step;
use repo_fixtures::cores::end;
use std::alloc::{AllocError, Global};
use store::Shard;

/// The keys, in their order.
static KEYS: [&[u8]; 10] = [
    b"likes/1",
    b"likes/2",
    b"likes/3",
    b"posts/10",
    b"posts/11",
    b"posts/12",
    b"posts/13",
    b"posts/14",
    b"posts/15",
    b"posts/22",
];

/// Numbers that look random, the same in each run.
#[derive(Drop)]
struct Numbers {
    state: u64,
}

impl Numbers {
    /// The next number below `bound`.
    fn below(&mut self, bound: u8) -> u8
        requires { 1 ≤ bound }
        ensures { result < bound }
    {
        self.state ^= self.state << 13;
        self.state ^= self.state >> 7;
        self.state ^= self.state << 17;
        ((self.state >> 16) % u64::from(bound)) as u8
    }
}

/// A batch, and what it changes.
#[derive(Drop)]
struct Turn {
    steps: Vec<Step<'static>>,
    changes: Vec<KeyChange<'static>>,
}

impl Turn {
    /// Gives a key a record, or takes it away, where that changes something.
    fn take(
        &mut self,
        before: Option<Cid>,
        key: &'static [u8],
        record: Option<&'static [u8]>,
    ) -> Result<(), AllocError> {
        let after = value_of(record);
        if before == after {
            return Ok(());
        }
        match record {
            Some(record) => self.steps.push(Step::Put(key, record))?,
            None => self.steps.push(Step::Delete(key))?,
        }
        self.changes.push(KeyChange { key, before, after })?;
        Ok(())
    }
}

/// The CID of a key's record.
fn cid_at(core: &Posts<Global>, key: &[u8]) -> Option<Cid> {
    match core.get(key) {
        Some(block) => Some(block.cid()),
        None => None,
    }
}

/// A random batch: each key is taken away, or gets one of two records, in three turns of ten.
fn turn_of(alloc: Global, core: &Posts<Global>, numbers: &mut Numbers) -> Result<Turn, AllocError> {
    let mut turn = Turn {
        steps: Vec::new(alloc),
        changes: Vec::new(alloc),
    };
    for key in &KEYS {
        let before = cid_at(core, key);
        match numbers.below(10) {
            0 => turn.take(before, key, Some(A))?,
            1 => turn.take(before, key, Some(B))?,
            2 => turn.take(before, key, None)?,
            _ => {}
        }
    }
    Ok(turn)
}

/// Whether a random batch, if it changes something, is told and followed, and the mirror has the repository's root then.
fn goes_on(
    alloc: Global,
    shards: (&mut Shard<Sha256>, &mut Shard<Sha256>),
    core: &mut Posts<Global>,
    mirror: &mut Posts<Global>,
    numbers: &mut Numbers,
    number: u16,
) -> bool {
    let Ok(turn) = turn_of(alloc, core, numbers) else {
        return false;
    };
    if turn.steps.is_empty() {
        return true;
    }
    let (own, other) = shards;
    match message_of(alloc, own, core, number, &turn.steps, &turn.changes) {
        Some(message) => match followed(alloc, other, mirror, &message) {
            Some(Ok(root)) => root == core.root(),
            _ => false,
        },
        None => false,
    }
}

/// Whether each of so many is.
fn all_go_on(
    alloc: Global,
    own: &mut Shard<Sha256>,
    other: &mut Shard<Sha256>,
    core: &mut Posts<Global>,
    mirror: &mut Posts<Global>,
    count: u16,
) -> bool {
    let mut numbers = Numbers { state: 20_240_102 };
    for number in 1..count {
        if !goes_on(
            alloc,
            (&mut *own, &mut *other),
            core,
            mirror,
            &mut numbers,
            number,
        ) {
            return false;
        }
    }
    true
}

#[test]
fn three_hundred_messages(rt: HostRuntime) {
    let alloc = rt.alloc();
    let (mut own, mut other) = (shard(alloc), shard(alloc));
    let mut core = opened(&rt, alloc, &mut own, 10_000);
    let mut mirror = opened(&rt, alloc, &mut other, 10_000);
    let right = all_go_on(alloc, &mut own, &mut other, &mut core, &mut mirror, 300);
    end(&mut own, core);
    end(&mut other, mirror);
    assert!(rt; right);
}
