//! The key before an entry, while a node is read.

ghost use Rattle.std.specs.Prelude.{◌≡◌, ◌<◌, ◌≤◌, ◌++◌, [], true, length, slice_index, take, IfOk, IfErr, Ok};
ghost use Rattle.spec.specs.Reading.{Gives, Fails};
ghost use Rattle.spec.specs.NodeFormat.{whole_key};
ghost use Rattle.node.specs.Fault.{node_fault_of};
ghost use Rattle.node.specs.KeyParts.{key_from, place_after, AreParts};

use crate::common::LONGEST_KEY;
use crate::fault::NodeFault;
use arrayvec::ArrayVec;
use std::marker::Model;

/// A part of a key: an entry's suffix, and the place in the key from which on it stands.
#[derive(Clone, Copy, Default, Drop)]
struct Part<'a> {
    prefix: usize,
    suffix: &'a [u8],
}

/// The key of the entry that was read last; the empty key before the first. No byte of it is copied: it is known by
/// the suffixes that it has bytes of, each from a later place on than the one before.
#[derive(Drop)]
pub(crate) struct KeyBefore<'a, const ROOM: usize> {
    parts: ArrayVec<Part<'a>, ROOM>,
}

impl<'a, const ROOM: usize> Model for KeyBefore<'a, ROOM> {
    ghost use Rattle.std.specs.Prelude.{ℕ, List, [], ◌≤◌, length};
    ghost use Rattle.node.specs.KeyParts.{key_from, AreParts};

    ghost Value = { List ℕ };

    ghost view = { λ k. key_from [] k.parts.items };

    ghost invariant = { λ k. AreParts 0 [] k.parts.items
        × (length (key_from [] k.parts.items) ≤ 1024) };
}

/// How many bytes the key has.
fn length_of(parts: &[Part<'_>]) -> usize
    requires are { AreParts 0 [] parts.now }
    requires short { length (key_from [] parts.now) ≤ 1024 }
    ensures { result ≡ length (key_from [] parts.now) }
{
    match parts.last() {
        Some(part) => part.prefix + part.suffix.len(),
        None => 0,
    }
}

/// How many of the parts begin before a place of the key.
fn count_before(parts: &[Part<'_>], place: usize) -> usize
    requires are { AreParts 0 [] parts.now }
    requires within { place ≤ length (key_from [] parts.now) }
    ensures fits { result ≤ length parts.now }
    ensures same { take place (key_from [] (take result parts.now))
        ≡ take place (key_from [] parts.now) }
    ensures within { place ≤ length (key_from [] (take result parts.now)) }
    ensures before { place_after 0 (take result parts.now) ≤ place }
{
    let mut count = parts.len();
    while count > 0 && place <= parts[count - 1].prefix {
        count -= 1;
    }
    count
}

/// The byte of the key at a place: it stands in the last part that begins there or before.
fn byte_at(parts: &[Part<'_>], place: usize) -> u8
    requires are { AreParts 0 [] parts.now }
    requires within { place < length (key_from [] parts.now) }
    requires short { length (key_from [] parts.now) ≤ 1024 }
    ensures { result ≡ slice_index (key_from [] parts.now) place }
{
    let part = &parts[count_before(parts, place + 1) - 1];
    part.suffix[place - part.prefix]
}

/// The tests of an entry that was read whole: what its key keeps of the key before, and what follows.
fn test(parts: &[Part<'_>], prefix: usize, suffix: &[u8]) -> Result<(), NodeFault>
    requires are { AreParts 0 [] parts.now }
    requires short { length (key_from [] parts.now) ≤ 1024 }
    ensures { Gives (λ _. take prefix (key_from [] parts.now) ++ suffix.now) node_fault_of result
        (whole_key (key_from [] parts.now) prefix suffix.now) }
{
    let key_length = length_of(parts);
    if prefix > key_length {
        return Err(NodeFault::BadPrefix);
    }
    if prefix == 0 && suffix.is_empty() {
        return Err(NodeFault::KeyLength);
    }
    if LONGEST_KEY - prefix < suffix.len() {
        return Err(NodeFault::KeyLength);
    }
    if suffix.is_empty() {
        return Err(NodeFault::KeyOrder);
    }
    if prefix < key_length {
        let byte = byte_at(parts, prefix);
        if suffix[0] == byte {
            return Err(NodeFault::BadPrefix);
        }
        if suffix[0] < byte {
            return Err(NodeFault::KeyOrder);
        }
    }
    Ok(())
}

impl<'a, const ROOM: usize> KeyBefore<'a, ROOM> {
    /// No entry yet.
    pub(crate) fn none() -> KeyBefore<'a, ROOM>
        ensures { result ≡ [] }
    {
        KeyBefore {
            parts: ArrayVec::new(),
        }
    }

    /// Tests an entry that was read whole, and takes its key. False where there is no room for one more part: there is
    /// for any key where there is for as many parts as the longest has bytes.
    pub(crate) fn next(&mut self, prefix: usize, suffix: &'a [u8]) -> Result<bool, NodeFault>
        ensures fault { IfErr result (λ fault. Fails (node_fault_of fault)
            (whole_key self.old prefix suffix.now)) }
        ensures taken { IfOk result (λ taken. taken ≡ true
            → whole_key self.old prefix suffix.now ≡ Ok self.new) }
        ensures room { ROOM ≡ 1024 → IfOk result (λ taken. taken ≡ true) }
    {
        test(self.parts.as_slice(), prefix, suffix)?;
        let kept = count_before(self.parts.as_slice(), prefix);
        if kept == ROOM {
            return Ok(false);
        }
        self.parts.truncate(kept);
        self.parts.push(Part { prefix, suffix });
        Ok(true)
    }
}
