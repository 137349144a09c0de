//! A batch of a thousand puts in a store with no more room than it needs.

ghost use Rattle.std.specs.Prelude.{◌≤◌};

use crate::opened::opened;
use batches::Write;
use cid::Cid;
use cid::digests::Toy;
use repo::Core;
use repo_fixtures::batch::{Batch, Step, batch_at, write_of};
use repo_fixtures::cores::{apply, counts, end, held};
use repo_fixtures::ends::Ended::Accepted;
use repo_fixtures::trees::{is_of, tree_of};
use std::alloc::{AllocError, Global};
use std::process::Abort;
use store::{Shard, TableKey};

type Pairs = Vec<([u8; 5], Cid)>;

/// The key of a number, whose last digit is its layer where it is from 0 to 3.
fn key_of(number: u16) -> [u8; 5] {
    [
        b'k',
        b'/',
        last_digit(number / 100),
        last_digit(number / 10),
        last_digit(number),
    ]
}

fn last_digit(number: u16) -> u8 {
    b'0' + (number % 10) as u8
}

/// The record of a number: the map of a letter to its two bytes.
fn record_of(number: u16, letter: u8) -> [u8; 6] {
    let [high, low] = number.to_be_bytes();
    [0xa1, 0x61, letter, 0x42, high, low]
}

/// A batch of puts, and the pairs that they leave on a repository without writes.
#[derive(Drop)]
struct Puts {
    batch: Batch<Global>,
    pairs: Pairs,
}

impl Puts {
    /// Adds the put of a number.
    fn add(&mut self, alloc: Global, number: u16, letter: u8) -> Result<(), AllocError> {
        let (key, record) = (key_of(number), record_of(number, letter));
        let put = write_of(alloc, Step::Put(&key, &record))?;
        self.batch.writes.push(put)?;
        self.pairs.push((key, Cid::of::<Toy>(&record)))?;
        Ok(())
    }
}

/// Puts of numbers below 1,000 that are so far apart, in order.
fn made_puts(alloc: Global, turn: u16, apart: u16, letter: u8) -> Result<Puts, AllocError>
    requires { 1 ≤ apart }
{
    let mut puts = Puts {
        batch: batch_at(alloc, turn, &[])?,
        pairs: Vec::new(alloc),
    };
    for number in 0..1000u16 {
        if number % apart == 0 {
            puts.add(alloc, number, letter)?;
        }
    }
    Ok(puts)
}

/// How many blocks a repository of these pairs has, each with a record of its own: nodes, records and the commit.
fn count_of(alloc: Global, pairs: &Pairs) -> usize {
    match tree_of::<Toy, 2, [u8; 5]>(alloc, pairs) {
        Some(tree) => tree
            .blocks
            .len()
            .saturating_add(pairs.len())
            .saturating_add(1),
        None => usize::MAX,
    }
}

/// Whether two batches are accepted, and leave the tree of the second one's pairs, so many blocks and no others.
fn are_taken(
    alloc: Global,
    shard: &mut Shard<Toy>,
    core: &mut Core<Toy, 2>,
    few: &Puts,
    all: &Puts,
    count: u64,
) -> bool {
    apply(alloc, shard, core, &few.batch) == Accepted(143)
        && apply(alloc, shard, core, &all.batch) == Accepted(1143)
        && is_of(alloc, core, &all.pairs, core.commit())
        && (held(shard, core), counts(shard)) == (Some(count), (count, count))
}

/// Whether a store has no more room than both batches need: for the blocks before the second one, those after it, and the
/// nodes that one edit adds, two in each of the four layers.
fn fit<R: Abort>(rt: &R, alloc: Global, few: &Puts, all: &Puts) -> bool {
    let (before, after) = (count_of(alloc, &few.pairs), count_of(alloc, &all.pairs));
    if before >= 1000 || after >= 3000 || all.batch.writes.len() != 1000 {
        return false;
    }
    let mut shard = Shard::new(alloc, before + after + 8, TableKey::known());
    let mut core = opened(rt, alloc, &mut shard, 0);
    let are_so = are_taken(alloc, &mut shard, &mut core, few, all, after as u64);
    end(&mut shard, core);
    are_so
}

/// Of two batches the second writes each key of the first once more.
#[test]
fn a_thousand_puts(rt: HostRuntime) {
    let few = made_puts(rt.alloc(), 0, 7, b'm').expect(&rt, "a batch");
    let all = made_puts(rt.alloc(), 1, 1, b'n').expect(&rt, "a batch");
    assert!(rt; fit(&rt, rt.alloc(), &few, &all));
}
