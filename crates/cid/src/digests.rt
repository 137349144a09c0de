//! Digests for tests, of no standard but this repository's own: 32 bytes without any cryptography, so that layers and
//! collisions can be had at will.
ghost use Rattle.std.specs.Prelude.{◌≡◌, ◌<◌};
ghost use Rattle.cid.specs.TestDigests.{toy, clash, size, fnv1a as fnv1a_of};
ghost use Rattle.spec.specs.TestDigests.{last_digit as last_digit_of, first_byte as first_byte_of};
ghost use Rattle.cid.specs.TestDigests.{length-toy, length-clash, length-size, IsBytes-toy, IsBytes-clash, IsBytes-size};

use crate::digest::Digest;

/// A digest that shows the layer that a key asks for, and tells most inputs apart.
///
/// Byte 0 begins with `2 d` zero bits and has ones after them, where d is 0 to 3 if the input ends in that ASCII
/// digit, and else 0. Bytes 1 to 8 are the 64-bit FNV-1a hash of the input, greatest byte first. The others are zero.
#[derive(Drop)]
pub struct Toy;

impl Digest for Toy {
    ghost digest_of = { toy };

    #[tactic(auto, unfolding(crate::specs::TestDigests::toy))]
    fn digest(bytes: &[u8]) -> [u8; 32] {
        let mut digest = [0; 32];
        digest[0] = first_byte(bytes);
        digest[1..9].copy_from_slice(&fnv1a(bytes).to_be_bytes());
        digest
    }

    ghost digest_len = { length-toy };

    ghost digest_bytes = { IsBytes-toy };
}

/// One digest for every input: 32 bytes `ff`. Every key has layer 0, and all blocks have one CID.
#[derive(Drop)]
pub struct Clash;

impl Digest for Clash {
    ghost digest_of = { clash };

    #[tactic(auto, unfolding(crate::specs::TestDigests::clash))]
    fn digest(_bytes: &[u8]) -> [u8; 32] {
        [0xff; 32]
    }

    ghost digest_len = { length-clash };

    ghost digest_bytes = { IsBytes-clash };
}

/// A digest that tells inputs of different lengths apart, and clashes on many of equal length.
///
/// Byte 0 is that of `Toy`, byte 1 the input's length modulo 256, all others are zero.
#[derive(Drop)]
pub struct Size;

impl Digest for Size {
    ghost digest_of = { size };

    #[tactic(auto, unfolding(crate::specs::TestDigests::size))]
    fn digest(bytes: &[u8]) -> [u8; 32] {
        let mut digest = [0; 32];
        digest[0] = first_byte(bytes);
        digest[1] = (bytes.len() % 256) as u8;
        digest
    }

    ghost digest_len = { length-size };

    ghost digest_bytes = { IsBytes-size };
}

/// `2 d` zero bits and then ones, for an input that ends in the digit d.
fn first_byte(bytes: &[u8]) -> u8
    ensures { result ≡ first_byte_of bytes.now }
{
    0xff >> (2 * last_digit(bytes))
}

/// 0 to 3 for an input that ends in that ASCII digit, else 0.
fn last_digit(bytes: &[u8]) -> u8
    ensures value { result ≡ last_digit_of bytes.now }
    ensures range { result < 4 }
{
    match bytes.last() {
        Some(last @ b'0'..=b'3') => *last - b'0',
        _ => 0,
    }
}

/// The FNV-1a hash of 64 bits (Fowler, Noll, Vo).
fn fnv1a(bytes: &[u8]) -> u64
    ensures { result ≡ fnv1a_of bytes.now }
{
    bytes.iter().fold(
        0xcbf2_9ce4_8422_2325,
        |hash, byte| (hash ^ u64::from(*byte)).wrapping_mul(0x0000_0100_0000_01b3),
    )
}
