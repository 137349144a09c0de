//! A thousand blocks whose identifiers tables hash alike, in one table: each look-up compares with half of them or so.
//!
//! A run without proofs compares byte by byte and tests each access, so that it takes some 15 microseconds a comparison, and
//! a million are needed to acquire the blocks. So few look-ups are made beside: of each seventh block, and releases begin
//! where a look-up does.
ghost use Rattle.std.specs.Prelude.{◌≤◌, ◌<◌};
ghost use Rattle.block_tests.specs.Late.{late, length-late, IsBytes-late};

use crate::fixtures::{acquired, block, entry_count, keep};
use cid::{Cid, Digest};
use std::alloc::Global;
use std::process::Abort;
use store::{Hold, Shard, TableKey};

/// A digest of 24 zeros and then how many bytes there are. Blocks of different lengths have different identifiers, and a
/// table sees of these the first eight bytes of the digest alone.
#[derive(Drop)]
struct Late;

impl Digest for Late {
    ghost digest_of = { late };

    #[tactic(auto, unfolding(crate::specs::Late::late))]
    fn digest(bytes: &[u8]) -> [u8; 32] {
        let mut digest = [0; 32];
        digest[24..32].copy_from_slice(&(bytes.len() as u64).to_be_bytes());
        digest
    }

    ghost digest_len = { length-late };

    ghost digest_bytes = { IsBytes-late };
}

/// How many blocks there are.
const BLOCKS: u32 = 1000;

/// Zeros, the content of the blocks.
static ZEROS: [u8; 1000] = [0; 1000];

/// The identifier of the block of this length.
fn cid_of(length: usize) -> Cid
    requires { length ≤ 1000 }
{
    Cid::of::<Late>(&ZEROS[..length])
}

/// Whether each seventh block has one core where its length's remainder by three is among these, and none elsewhere.
fn are_there(shard: &Shard<Late>, rests: &[usize]) -> bool {
    for length in (0..BLOCKS as usize).step_by(7) {
        let cid = cid_of(length);
        if shard.count(&cid) != u64::from(rests.contains(&(length % 3))) {
            return false;
        }
    }
    true
}

/// Acquires the blocks whose length has this remainder by three, each for a core of its own.
fn acquire_third<R: Abort>(
    rt: &R,
    alloc: Global,
    shard: &mut Shard<Late>,
    rest: usize,
) -> Vec<Hold<Late>> {
    let mut holds = Vec::new(alloc);
    for length in 0..BLOCKS {
        let place = length as usize;
        if place % 3 == rest {
            let hold = acquired(rt, shard, length, block(rt, alloc, &ZEROS[..place]));
            keep(rt, &mut holds, hold);
        }
    }
    holds
}

/// Releases these holds, the first first: whether each core held its own block.
fn release_third(shard: &mut Shard<Late>, mut holds: Vec<Hold<Late>>) -> bool {
    let mut right = true;
    holds.as_mut_slice().reverse();
    while let Some(hold) = holds.pop() {
        right = right
            && hold.core() as usize == hold.block().bytes().len()
            && shard.has(&hold.cid(), hold.core());
        shard.release(hold);
    }
    holds.destroy_empty();
    right
}

#[test]
fn a_thousand_of_one_hash(rt: HostRuntime) {
    let mut shard: Shard<Late> = Shard::new(rt.alloc(), BLOCKS as usize, TableKey::known());
    let first = acquire_third(&rt, rt.alloc(), &mut shard, 0);
    let second = acquire_third(&rt, rt.alloc(), &mut shard, 1);
    let third = acquire_third(&rt, rt.alloc(), &mut shard, 2);
    let all = are_there(&shard, &[0, 1, 2]) && entry_count(&shard) == BLOCKS as usize;
    let middle = release_third(&mut shard, second) && are_there(&shard, &[0, 2]);
    let start = release_third(&mut shard, first) && are_there(&shard, &[2]);
    let none = release_third(&mut shard, third) && entry_count(&shard) == 0;
    assert!(rt; all && middle && start && none);
}
