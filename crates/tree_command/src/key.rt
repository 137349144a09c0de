//! A key as it stands in a listing.
ghost use Rattle.std.specs.Prelude.{◌≡◌, ◌≤◌, refl, take, drop, nat_eq, Some};
ghost use Rattle.std.specs.Cmp.{partial_equiv_from_equiv};
ghost use Rattle.std.specs.Cmp.Lexicographic.{pointwise, slice_cmp, nat_list_cmp_total, nat_list_eq_equiv, texts_po, texts_ties};
ghost use Rattle.std.specs.Ordering.{nat_cmp};
ghost use Rattle.std.specs.Int.{w64, from_be_bytes};
ghost use Rattle.spec.specs.Reading.{IsBytes};
ghost use Rattle.tree_command.specs.Fronts.{filled as filled_of, numbers as numbers_of};

use std::cmp::Ordering;
use std::convert::AsSlice;
use std::marker::Model;

/// A key, lent from the input that it was read from, ordered and compared bytewise.
///
/// Beside it stand its first 32 bytes as numbers, filled up with zero bytes, which nearly always decide: most keys of
/// the AT Protocol begin like others and differ from them within these. So a sort seldom goes to the bytes, which lie
/// all over the input.
#[derive(Drop)]
pub struct ListedKey<'a> {
    front: [u64; 4],
    bytes: &'a [u8],
}

impl<'a> Model for ListedKey<'a> {
    ghost use Rattle.std.specs.Prelude.{ℕ, List};
    ghost use Rattle.tree_command.specs.Fronts.{IsFront};

    ghost Value = { List ℕ };

    ghost view = { λ k. k.bytes.now };

    ghost invariant = { λ k. IsFront k.front k.bytes.now };
}

impl<'a> ListedKey<'a> {
    /// The key of these bytes.
    pub fn new(bytes: &'a [u8]) -> ListedKey<'a>
        ensures { result ≡ bytes.now }
    {
        ListedKey {
            front: numbers(&filled(bytes)),
            bytes,
        }
    }

    /// Its bytes, as the input lends them.
    pub fn bytes(&self) -> &'a [u8]
        ensures { result.now ≡ self.now }
    {
        self.bytes
    }
}

/// The first 32 bytes, with zero bytes after them where there are fewer.
fn filled(bytes: &[u8]) -> [u8; 32]
    ensures value { result ≡ filled_of 32 bytes.now }
    ensures fits { IsBytes bytes.now }
{
    let length = bytes.len().min(32);
    let mut filled = [0; 32];
    filled[..length].copy_from_slice(&bytes[..length]);
    filled
}

/// The numbers that these bytes spell, eight each, the highest first.
fn numbers(bytes: &[u8; 32]) -> [u64; 4]
    ensures { result ≡ numbers_of 4 bytes.now }
{
    [
        number(bytes, 0),
        number(bytes, 8),
        number(bytes, 16),
        number(bytes, 24),
    ]
}

/// The number that the eight bytes from a place on spell, the highest first.
fn number(b: &[u8; 32], at: usize) -> u64
    requires { at ≤ 24 }
    ensures { result ≡ from_be_bytes w64 (take 8 (drop at b.now)) }
{
    u64::from_be_bytes([
        b[at],
        b[at + 1],
        b[at + 2],
        b[at + 3],
        b[at + 4],
        b[at + 5],
        b[at + 6],
        b[at + 7],
    ])
}

impl<'a> AsSlice<u8> for ListedKey<'a> {
    ghost items = { λ key. key };

    fn as_slice(&self) -> &[u8] {
        self.bytes
    }
}

impl<'a> PartialEq for ListedKey<'a> {
    ghost eq = { pointwise nat_eq };

    ghost laws = { partial_equiv_from_equiv nat_list_eq_equiv };

    fn eq(&self, other: &Self) -> bool {
        self.front == other.front && self.bytes == other.bytes
    }
}

impl<'a> Eq for ListedKey<'a> {
    ghost laws = { nat_list_eq_equiv };
}

impl<'a> PartialOrd for ListedKey<'a> {
    ghost partial_cmp = { λ x y. Some (slice_cmp nat_cmp x y) };

    ghost laws = { texts_po };

    fn partial_cmp(&self, other: &Self) -> Option<Ordering> {
        Some(self.cmp(other))
    }
}

impl<'a> Ord for ListedKey<'a> {
    ghost cmp = { slice_cmp nat_cmp };

    ghost total = { nat_list_cmp_total };

    ghost matches_partial_cmp = { λ x y. refl };

    ghost matches_eq = { texts_ties };

    /// Where the numbers are equal the bytes decide, as keys may be longer, or end in zero bytes.
    fn cmp(&self, other: &Self) -> Ordering {
        match self.front.cmp(&other.front) {
            Ordering::Equal => self.bytes.cmp(other.bytes),
            order => order,
        }
    }
}
