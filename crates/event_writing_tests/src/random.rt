//! Random batches of one repository, each written and then checked.

ghost use Rattle.std.specs.Prelude.{◌≤◌, ◌<◌};

use crate::fixtures::{A, B, C, Posts, SIG, TIME, opened, shard, value_of, written};
use cid::{Cid, Sha256};
use commit_events::check_commit;
use event_writing::Told;
use key_changes::KeyChange;
use repo_fixtures::batch::{Step, batch_at, rev_after};
use repo_fixtures::cores::{apply_made, end};
use repo_fixtures::ends::Ended;
use std::alloc::{AllocError, Global};
use store::Shard;

/// The keys, in their order.
static KEYS: [&[u8]; 20] = [
    b"likes/1",
    b"likes/2",
    b"likes/3",
    b"likes/4",
    b"likes/5",
    b"likes/6",
    b"likes/7",
    b"posts/10",
    b"posts/11",
    b"posts/12",
    b"posts/13",
    b"posts/14",
    b"posts/15",
    b"posts/16",
    b"posts/17",
    b"posts/18",
    b"posts/19",
    b"posts/20",
    b"posts/21",
    b"posts/22",
];

/// Numbers that look random, the same in each run.
#[derive(Drop)]
struct Numbers {
    state: u64,
}

impl Numbers {
    /// The next number below `bound`.
    fn below(&mut self, bound: u8) -> u8
        requires { 1 ≤ bound }
        ensures { result < bound }
    {
        self.state ^= self.state << 13;
        self.state ^= self.state >> 7;
        self.state ^= self.state << 17;
        ((self.state >> 16) % u64::from(bound)) as u8
    }
}

/// A batch, and what it changes.
#[derive(Drop)]
struct Turn {
    steps: Vec<Step<'static>>,
    changes: Vec<KeyChange<'static>>,
}

impl Turn {
    /// Gives a key a record, or takes it away where it has one.
    fn take(
        &mut self,
        before: Option<Cid>,
        key: &'static [u8],
        record: Option<&'static [u8]>,
    ) -> Result<(), AllocError> {
        match record {
            Some(record) => self.steps.push(Step::Put(key, record))?,
            None => {
                if before.is_none() {
                    return Ok(());
                }
                self.steps.push(Step::Delete(key))?;
            }
        }
        self.changes.push(KeyChange {
            key,
            before,
            after: value_of(record),
        })?;
        Ok(())
    }
}

/// The CID of a key's record.
fn cid_at(core: &Posts<Global>, key: &[u8]) -> Option<Cid> {
    match core.get(key) {
        Some(block) => Some(block.cid()),
        None => None,
    }
}

/// A random batch: each key is taken away, or gets one of three records, in four turns of thirty. Where none is, the first key gets
/// one.
fn turn_of(alloc: Global, core: &Posts<Global>, numbers: &mut Numbers) -> Result<Turn, AllocError> {
    let mut turn = Turn {
        steps: Vec::new(alloc),
        changes: Vec::new(alloc),
    };
    for key in &KEYS {
        let before = cid_at(core, key);
        match numbers.below(30) {
            0 => turn.take(before, key, Some(A))?,
            1 => turn.take(before, key, Some(B))?,
            2 => turn.take(before, key, Some(C))?,
            3 => turn.take(before, key, None)?,
            _ => {}
        }
    }
    if turn.steps.is_empty() {
        turn.take(cid_at(core, KEYS[0]), KEYS[0], Some(A))?;
    }
    Ok(turn)
}

/// How many of the changes change something.
fn count_changed(changes: &[KeyChange<'_>]) -> usize {
    let mut count = 0usize;
    for change in changes {
        if change.before != change.after {
            count = count.saturating_add(1);
        }
    }
    count
}

/// Whether a message is taken from the root before, leads to the repository's root, and has so many operations.
fn is_taken(
    alloc: Global,
    core: &Posts<Global>,
    before: Cid,
    message: &[u8],
    count: usize,
) -> bool {
    match check_commit::<Sha256, 2, Global>(alloc, before, message) {
        Ok(checked) => {
            checked.commit.root.to_cid() == core.root() && checked.event.ops.len() == count
        }
        Err(_) => false,
    }
}

/// Whether the message of the last batch is written and taken.
fn is_told(
    alloc: Global,
    core: &Posts<Global>,
    before: Cid,
    number: u16,
    changes: &[KeyChange<'_>],
) -> bool {
    let since = rev_after(number);
    let told = Told {
        seq: u64::from(number),
        time: TIME,
        since: Some(&since),
        sig: SIG,
    };
    match written(alloc, core, before, changes, &told) {
        Ok(message) => is_taken(alloc, core, before, &message, count_changed(changes)),
        Err(_) => false,
    }
}

/// Whether a random batch is taken and told.
fn goes_on(
    alloc: Global,
    shard: &mut Shard<Sha256>,
    core: &mut Posts<Global>,
    numbers: &mut Numbers,
    number: u16,
) -> bool {
    let Ok(turn) = turn_of(alloc, core, numbers) else {
        return false;
    };
    let before = core.root();
    let batch = batch_at(alloc, number.saturating_add(1), &turn.steps);
    match apply_made(alloc, shard, core, batch) {
        Ended::Accepted(_) => is_told(alloc, core, before, number, &turn.changes),
        _ => false,
    }
}

/// Whether each of so many is.
fn all_go_on(
    alloc: Global,
    shard: &mut Shard<Sha256>,
    core: &mut Posts<Global>,
    count: u16,
) -> bool {
    let mut numbers = Numbers { state: 20_240_101 };
    for number in 0..count {
        if !goes_on(alloc, shard, core, &mut numbers, number) {
            return false;
        }
    }
    true
}

#[test]
fn a_thousand_batches(rt: HostRuntime) {
    let alloc = rt.alloc();
    let mut shard = shard(alloc);
    let mut core = opened(&rt, alloc, &mut shard);
    let right = all_go_on(alloc, &mut shard, &mut core, 1_000);
    end(&mut shard, core);
    assert!(rt; right);
}
