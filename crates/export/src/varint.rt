//! Numbers as unsigned LEB128 (multiformats, unsigned-varint).

ghost use Rattle.std.specs.Prelude.{◌≡◌, ◌≤◌, take};
ghost use Rattle.spec.specs.Varint.{varint};

/// How many bytes a number of 64 bits has at most.
pub(crate) const LONGEST: usize = 10;

/// The bytes of a number, the low seven bits first, and how many they are.
pub(crate) fn varint(number: u64) -> ([u8; LONGEST], usize)
    ensures within { result.1 ≤ 10 }
    ensures bytes { take result.1 result.0 ≡ varint number }
{
    let mut bytes = [0; LONGEST];
    let mut count = 0;
    let mut left = number;
    while left >= 128 {
        bytes[count] = (left % 128) as u8 + 128;
        left /= 128;
        count += 1;
    }
    bytes[count] = left as u8;
    (bytes, count + 1)
}
