//! The texts of CIDs of any length: `b` and base 32 in lower case without padding (CIDv1; multibase; RFC 4648, section 6).

ghost use Rattle.std.specs.Prelude.{◌≡◌, ◌<◌, length, map, slice_index, IfOk, option_map};
ghost use Rattle.std.specs.Str.{IsUtf8};
ghost use Rattle.spec.specs.Cid.{text as text_of, letter as letter_of, five_bits as five_bits_of, eight_bits as eight_bits_of, letter_value as value_of};
ghost use Rattle.record_json.specs.LinkText.{bytes_of_letters, link_of_text};

use crate::form::is_version_1;
use std::alloc::{AllocError, Allocator};

const ALPHABET: [u8; 32] = *b"abcdefghijklmnopqrstuvwxyz234567";

/// The text of a CID.
pub(crate) fn cid_text<A: Allocator>(alloc: A, cid: &[u8]) -> Result<Vec<u8, A>, AllocError>
    ensures value { IfOk result (λ text. text.items ≡ text_of cid.now) }
    ensures utf8 { IfOk result (λ text. IsUtf8 text.items) }
{
    let count = cid.len() / 5 * 8 + (cid.len() % 5 * 8 + 4) / 5;
    let mut text = Vec::with_capacity(alloc, count + 1)?;
    text.push(b'b')?;
    for i in 0..count {
        text.push(letter(cid, i))?;
    }
    Ok(text)
}

/// The letter of the bits from 5 i on.
fn letter(cid: &[u8], i: usize) -> u8
    ensures { result ≡ letter_of cid.now i }
{
    ALPHABET[five_bits(cid, i) as usize]
}

/// The five bits from 5 i on, with zero bits after the last byte.
fn five_bits(cid: &[u8], i: usize) -> u32
    ensures value { result ≡ five_bits_of cid.now i }
    ensures small { result < 32 }
{
    let at = i / 8 * 5 + i % 8 * 5 / 8;
    let bits = u32::from(byte_at(cid, at)) * 256 + u32::from(byte_at(cid, at + 1));
    (bits >> (11 - (i % 8 * 5 % 8) as u32)) % 32
}

/// A byte, and 0 behind the last.
fn byte_at(bytes: &[u8], at: usize) -> u8
    ensures { result ≡ slice_index bytes.now at }
{
    if at < bytes.len() { bytes[at] } else { 0 }
}

/// What a letter stands for, and 32 where it isn't in the alphabet.
fn letter_value(letter: u8) -> u8
    ensures { result ≡ value_of letter }
{
    if letter > 96 && letter < 123 {
        letter - 97
    } else if letter > 49 && letter < 56 {
        letter - 24
    } else {
        32
    }
}

/// What the letter there stands for, and 0 behind the last.
fn value_at(letters: &[u8], at: usize) -> u32
    ensures value { result ≡ slice_index (map value_of letters.now) at }
    ensures small { result < 33 }
{
    if at < letters.len() {
        u32::from(letter_value(letters[at]))
    } else {
        0
    }
}

/// The eight bits from 8 j on.
fn eight_bits(letters: &[u8], j: usize) -> u8
    requires { j < length letters.now }
    ensures { result ≡ eight_bits_of (map value_of letters.now) j }
{
    let at = j / 5 * 8 + j % 5 * 8 / 5;
    let bits = value_at(letters, at) * 1024
        + value_at(letters, at + 1) * 32
        + value_at(letters, at + 2);
    ((bits >> (7 - (j % 5 * 8 % 5) as u32)) % 256) as u8
}

/// As many bytes as the letters behind the first have bits for.
fn bytes<A: Allocator>(alloc: A, text: &[u8]) -> Result<Vec<u8, A>, AllocError>
    ensures { IfOk result (λ bytes. bytes.items ≡ bytes_of_letters text.now) }
{
    let mut bytes = Vec::new(alloc);
    if text.is_empty() {
        return Ok(bytes);
    }
    let letters = &text[1..];
    let count = letters.len() / 8 * 5 + letters.len() % 8 * 5 / 8;
    for j in 0..count {
        bytes.push(eight_bits(letters, j))?;
    }
    Ok(bytes)
}

/// The CID of version 1 with this text, where there is one. It has no other text.
pub(crate) fn cid_of_text<A: Allocator + Copy>(
    alloc: A,
    text: &[u8],
) -> Result<Option<Vec<u8, A>>, AllocError>
    ensures { IfOk result (λ cid. option_map (λ bytes. bytes.items) cid ≡ link_of_text text.now) }
{
    let cid = bytes(alloc, text)?;
    if !is_version_1(&cid) {
        return Ok(None);
    }
    let own = cid_text(alloc, &cid)?;
    if own.as_slice() != text {
        return Ok(None);
    }
    Ok(Some(cid))
}
