//! The functions of SHA-256 (FIPS 180-4, 4.1.2) on vectors of four words, lane by lane.

ghost use Rattle.std.specs.Prelude.{◌≡◌, ℕ, ◌/◌, ◌^◌, ◌<◌, slice_index, bit_xor, bit_and};
ghost use Rattle.std.specs.Int.{w32, bit_not, rotate_right};
ghost use Rattle.sha2.specs.Sha256.{add32, big_sigma0, big_sigma1, ch, maj, small_sigma0, small_sigma1};

use std::simd::u32x4;

/// The sum of each two words, modulo 2 to the 32.
#[inline(always)]
pub(crate) fn add(x: u32x4, y: u32x4) -> u32x4
    ensures { (j : ℕ) → j < 4 → slice_index result j ≡ add32 (slice_index x j) (slice_index y j) }
{
    x + y
}

/// Each word rotated to the right by `k` bits.
#[inline(always)]
pub(crate) fn rotate(x: u32x4, k: u32) -> u32x4
    requires { (0 < k) × (k < 32) }
    ensures { (j : ℕ) → j < 4 → slice_index result j ≡ rotate_right w32 (slice_index x j) k }
{
    (x >> u32x4::splat(k)) | (x << u32x4::splat(32 - k))
}

/// Each word shifted to the right by `k` bits.
#[inline(always)]
pub(crate) fn shift(x: u32x4, k: u32) -> u32x4
    requires { k < 32 }
    ensures { (j : ℕ) → j < 4 → slice_index result j ≡ slice_index x j / 2 ^ k }
{
    x >> u32x4::splat(k)
}

/// The exclusive or of each two words.
#[inline(always)]
pub(crate) fn xor(x: u32x4, y: u32x4) -> u32x4
    ensures { (j : ℕ) → j < 4 → slice_index result j ≡ bit_xor (slice_index x j) (slice_index y j) }
{
    x ^ y
}

/// The bits that each two words have in common.
#[inline(always)]
pub(crate) fn and(x: u32x4, y: u32x4) -> u32x4
    ensures { (j : ℕ) → j < 4 → slice_index result j ≡ bit_and (slice_index x j) (slice_index y j) }
{
    x & y
}

/// The complement of each word.
#[inline(always)]
pub(crate) fn not(x: u32x4) -> u32x4
    ensures { (j : ℕ) → j < 4 → slice_index result j ≡ bit_not w32 (slice_index x j) }
{
    !x
}

/// The choice of each three words: where a bit of `x` is set that of `y`, else that of `z`.
// The compiler finds the shorter form.
#[inline(always)]
pub(crate) fn ch(x: u32x4, y: u32x4, z: u32x4) -> u32x4
    ensures { (j : ℕ) → j < 4
        → slice_index result j ≡ ch (slice_index x j) (slice_index y j) (slice_index z j) }
{
    xor(and(x, y), and(not(x), z))
}

/// The majority of each three words, bit by bit.
#[inline(always)]
pub(crate) fn maj(x: u32x4, y: u32x4, z: u32x4) -> u32x4
    ensures { (j : ℕ) → j < 4
        → slice_index result j ≡ maj (slice_index x j) (slice_index y j) (slice_index z j) }
{
    xor(xor(and(x, y), and(x, z)), and(y, z))
}

/// The function of the first word of a hash value.
#[inline(always)]
pub(crate) fn big_sigma0(x: u32x4) -> u32x4
    ensures { (j : ℕ) → j < 4 → slice_index result j ≡ big_sigma0 (slice_index x j) }
{
    xor(xor(rotate(x, 2), rotate(x, 13)), rotate(x, 22))
}

/// The function of its fifth word.
#[inline(always)]
pub(crate) fn big_sigma1(x: u32x4) -> u32x4
    ensures { (j : ℕ) → j < 4 → slice_index result j ≡ big_sigma1 (slice_index x j) }
{
    xor(xor(rotate(x, 6), rotate(x, 11)), rotate(x, 25))
}

/// The function of the message schedule for the word fifteen before.
#[inline(always)]
pub(crate) fn small_sigma0(x: u32x4) -> u32x4
    ensures { (j : ℕ) → j < 4 → slice_index result j ≡ small_sigma0 (slice_index x j) }
{
    xor(xor(rotate(x, 7), rotate(x, 18)), shift(x, 3))
}

/// The function of the message schedule for the word two before.
#[inline(always)]
pub(crate) fn small_sigma1(x: u32x4) -> u32x4
    ensures { (j : ℕ) → j < 4 → slice_index result j ≡ small_sigma1 (slice_index x j) }
{
    xor(xor(rotate(x, 17), rotate(x, 19)), shift(x, 10))
}
