//! Base32 in lower case without padding, of the 36 bytes of an identifier (RFC 4648, section 6).
//!
//! Five bytes are eight letters, and both are one number of 40 bits. So the 36 bytes go by seven groups of five, each
//! with its eight letters, and the last byte has two letters of its own.
ghost use Rattle.std.specs.Prelude.{◌≡◌, ◌∷◌, [], ◌%◌, map, length, nat_lt, slice_index, true, Some, None, if◌then◌else◌};
ghost use Rattle.std.specs.List.{list_all, range_with_len};
ghost use Rattle.spec.specs.Reading.{IsBytes};
ghost use Rattle.spec.specs.Cid.{alphabet, letter as letter_of, eight_bits as eight_bits_of, letter_value as value_of, base32};

const ALPHABET: [u8; 32] = *b"abcdefghijklmnopqrstuvwxyz234567";

/// What each byte stands for as a letter, and 32 where it isn't in the alphabet.
static VALUES: [u8; 256] = [
    32, 32, 32, 32, 32, 32, 32, 32, 32, 32, 32, 32, 32, 32, 32, 32, 32, 32, 32, 32, 32, 32, 32, 32,
    32, 32, 32, 32, 32, 32, 32, 32, 32, 32, 32, 32, 32, 32, 32, 32, 32, 32, 32, 32, 32, 32, 32, 32,
    32, 32, 26, 27, 28, 29, 30, 31, 32, 32, 32, 32, 32, 32, 32, 32, 32, 32, 32, 32, 32, 32, 32, 32,
    32, 32, 32, 32, 32, 32, 32, 32, 32, 32, 32, 32, 32, 32, 32, 32, 32, 32, 32, 32, 32, 32, 32, 32,
    32, 0, 1, 2, 3, 4, 5, 6, 7, 8, 9, 10, 11, 12, 13, 14, 15, 16, 17, 18, 19, 20, 21, 22, 23, 24,
    25, 32, 32, 32, 32, 32, 32, 32, 32, 32, 32, 32, 32, 32, 32, 32, 32, 32, 32, 32, 32, 32, 32, 32,
    32, 32, 32, 32, 32, 32, 32, 32, 32, 32, 32, 32, 32, 32, 32, 32, 32, 32, 32, 32, 32, 32, 32, 32,
    32, 32, 32, 32, 32, 32, 32, 32, 32, 32, 32, 32, 32, 32, 32, 32, 32, 32, 32, 32, 32, 32, 32, 32,
    32, 32, 32, 32, 32, 32, 32, 32, 32, 32, 32, 32, 32, 32, 32, 32, 32, 32, 32, 32, 32, 32, 32, 32,
    32, 32, 32, 32, 32, 32, 32, 32, 32, 32, 32, 32, 32, 32, 32, 32, 32, 32, 32, 32, 32, 32, 32, 32,
    32, 32, 32, 32, 32, 32, 32, 32, 32, 32, 32, 32, 32, 32,
];

/// The letters of the bytes, five bits each. Two zero bits fill the last one.
pub(crate) fn letters(bytes: &[u8; 36]) -> [u8; 58]
    ensures value { result ≡ base32 bytes.now }
    ensures bytes { IsBytes bytes.now }
{
    let mut letters = [0; 58];
    for group in 0..7 {
        let at = 5 * group;
        let five = [
            bytes[at],
            bytes[at + 1],
            bytes[at + 2],
            bytes[at + 3],
            bytes[at + 4],
        ];
        letters[8 * group..8 * group + 8].copy_from_slice(&eight_letters(five));
    }
    letters[56..].copy_from_slice(&two_letters(bytes[35]));
    letters
}

/// The letters of five bytes.
fn eight_letters(five: [u8; 5]) -> [u8; 8]
    ensures { result ≡ map (letter_of five) (range_with_len 0 8) }
{
    let [a, b, c, d, e] = five;
    let bits = u64::from_be_bytes([0, 0, 0, a, b, c, d, e]);
    [
        letter(bits >> 35),
        letter(bits >> 30),
        letter(bits >> 25),
        letter(bits >> 20),
        letter(bits >> 15),
        letter(bits >> 10),
        letter(bits >> 5),
        letter(bits),
    ]
}

/// The letters of the last byte, with two zero bits after it.
fn two_letters(byte: u8) -> [u8; 2]
    ensures { result ≡ map (letter_of (byte ∷ [])) (range_with_len 0 2) }
{
    let bits = u64::from(byte) << 2;
    [letter(bits >> 5), letter(bits)]
}

/// The letter of the lowest five bits.
fn letter(bits: u64) -> u8
    ensures { result ≡ slice_index alphabet (bits % 32) }
{
    ALPHABET[(bits % 32) as usize]
}

/// The bytes that the letters stand for, or `None` where one isn't in the alphabet.
pub(crate) fn bytes(letters: &[u8]) -> Option<[u8; 36]>
    requires { length letters.now ≡ 58 }
    ensures { result ≡ (if list_all (λ v. nat_lt v 32) (map value_of letters.now)
        then Some (map (eight_bits_of (map value_of letters.now)) (range_with_len 0 36))
        else None) }
{
    let mut bytes = [0; 36];
    for group in 0..7 {
        let at = 8 * group;
        let values = [
            value(letters[at]),
            value(letters[at + 1]),
            value(letters[at + 2]),
            value(letters[at + 3]),
            value(letters[at + 4]),
            value(letters[at + 5]),
            value(letters[at + 6]),
            value(letters[at + 7]),
        ];
        bytes[5 * group..5 * group + 5].copy_from_slice(&five_bytes(&values)?);
    }
    bytes[35] = one_byte([value(letters[56]), value(letters[57])])?;
    Some(bytes)
}

/// The bytes of eight letters with these values, or `None` where one is no value.
///
/// They are lent, since an array by value is packed into one number and then taken apart again.
fn five_bytes(values: &[u8; 8]) -> Option<[u8; 5]>
    ensures { result ≡ (if list_all (λ v. nat_lt v 32) values.now
        then Some (map (eight_bits_of values.now) (range_with_len 0 5)) else None) }
{
    let [a, b, c, d, e, f, g, h] = *values;
    if a < 32 && b < 32 && c < 32 && d < 32 && e < 32 && f < 32 && g < 32 && h < 32 {
        Some(joined(values))
    } else {
        None
    }
}

/// The forty bits of eight values, as five bytes.
fn joined(values: &[u8; 8]) -> [u8; 5]
    requires { list_all (λ v. nat_lt v 32) values.now ≡ true }
    ensures { result ≡ map (eight_bits_of values.now) (range_with_len 0 5) }
{
    let [a, b, c, d, e, f, g, h] = *values;
    let high = (u64::from(a) << 15) + (u64::from(b) << 10) + (u64::from(c) << 5) + u64::from(d);
    let low = (u64::from(e) << 15) + (u64::from(f) << 10) + (u64::from(g) << 5) + u64::from(h);
    let [_, _, _, first, second, third, fourth, fifth] = ((high << 20) + low).to_be_bytes();
    [first, second, third, fourth, fifth]
}

/// The byte of the last two letters with these values, or `None` where one is no value. The lowest two bits are left out.
fn one_byte(values: [u8; 2]) -> Option<u8>
    ensures { result ≡ (if list_all (λ v. nat_lt v 32) values
        then Some (eight_bits_of values 0) else None) }
{
    let [a, b] = values;
    if a < 32 && b < 32 {
        Some(a * 8 + b / 4)
    } else {
        None
    }
}

/// What a letter stands for, and 32 where it isn't in the alphabet.
pub(crate) fn value(letter: u8) -> u8
    ensures { result ≡ value_of letter }
{
    VALUES[usize::from(letter)]
}
