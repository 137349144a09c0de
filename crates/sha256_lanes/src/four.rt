//! Four messages side by side.

ghost use Rattle.std.specs.Prelude.{◌≡◌, ℕ, ◌+◌, ◌<◌, [], ◌∷◌, nat_eq, slice_index, slice_index_or, if◌then◌else◌};
ghost use Rattle.sha2.specs.Sha256.{digest_bytes, initial_hash_256, sha256};
ghost use Rattle.sha256_lanes.specs.Blocks.{block_count, hash_at, one_of};
ghost use Rattle.sha256_lanes.specs.Lanes.{lane};

use crate::blocks::{block_count, padded_block};
use crate::compression::compress;
use crate::constants::H256;
use std::simd::u32x4;

/// The digests of four messages, in their order.
///
/// It takes as many turns as the longest of them has blocks of 64 bytes.
pub fn digest_four(a: &[u8], b: &[u8], c: &[u8], d: &[u8]) -> [[u8; 32]; 4]
    ensures { result ≡ sha256 a.now ∷ sha256 b.now ∷ sha256 c.now ∷ sha256 d.now ∷ [] }
{
    let counts = [
        block_count(a),
        block_count(b),
        block_count(c),
        block_count(d),
    ];
    let most = counts[0].max(counts[1]).max(counts[2]).max(counts[3]);
    let mut state = initial();
    let mut digests = [[0; 32]; 4];
    'turns: for i in 0..most {
        absorb(&mut state, a, b, c, d, i);
        take_done(&mut digests, &state, &counts, i + 1);
    }
    digests
}

/// The initial hash value in each lane.
fn initial() -> [u32x4; 8]
    ensures { (j : ℕ) → j < 4 → lane j result ≡ initial_hash_256 }
{
    [
        u32x4::splat(H256[0]),
        u32x4::splat(H256[1]),
        u32x4::splat(H256[2]),
        u32x4::splat(H256[3]),
        u32x4::splat(H256[4]),
        u32x4::splat(H256[5]),
        u32x4::splat(H256[6]),
        u32x4::splat(H256[7]),
    ]
}

/// Takes block `i` of each message into its lane. A lane whose message has no such block is of no use any more.
#[inline(always)]
fn absorb(state: &mut [u32x4; 8], a: &[u8], b: &[u8], c: &[u8], d: &[u8], i: usize)
    ensures { let message = one_of a.now b.now c.now d.now in
        (j : ℕ) → j < 4 → i < block_count (message j)
        → lane j state.old ≡ hash_at (message j) i
        → lane j state.new ≡ hash_at (message j) (i + 1) }
{
    let blocks = [
        padded_block(a, i),
        padded_block(b, i),
        padded_block(c, i),
        padded_block(d, i),
    ];
    compress(state, &blocks);
}

/// Takes the digests of the lanes whose messages have so many blocks.
#[inline(always)]
fn take_done(digests: &mut [[u8; 32]; 4], state: &[u32x4; 8], counts: &[usize; 4], done: usize)
    ensures { (j : ℕ) → j < 4 → slice_index_or digests.new j []
        ≡ (if nat_eq (slice_index counts.now j) done then digest_bytes (lane j state.now) 8
        else slice_index_or digests.old j []) }
{
    if counts[0] == done {
        digests[0] = digest_of(state, 0);
    }
    if counts[1] == done {
        digests[1] = digest_of(state, 1);
    }
    if counts[2] == done {
        digests[2] = digest_of(state, 2);
    }
    if counts[3] == done {
        digests[3] = digest_of(state, 3);
    }
}

/// The digest that a lane holds.
fn digest_of(state: &[u32x4; 8], j: usize) -> [u8; 32]
    requires { j < 4 }
    ensures { result ≡ digest_bytes (lane j state.now) 8 }
{
    let mut digest = [0; 32];
    'words: for i in 0..8 {
        let word = state[i].to_array()[j];
        digest[4 * i..4 * i + 4].copy_from_slice(&word.to_be_bytes());
    }
    digest
}
