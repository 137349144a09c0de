//! Values that are passed over: each is tested as `read` tests it, and nothing is kept of it, so no memory is taken.

ghost use Rattle.std.specs.Prelude.{◌≡◌, ◌≢◌, Err, pos, negsuc};
ghost use Rattle.spec.specs.Reading.{Gives};
ghost use Rattle.spec.specs.Head.{Array, Map};
ghost use Rattle.spec.specs.DagCbor.{integer_of, items_at, fields_at, content_of, value_at};
ghost use Rattle.dagcbor.specs.Fault.{cbor_fault_of};
ghost use Rattle.dagcbor.specs.Majors.{major_view};
ghost use Rattle.dagcbor.specs.Levels.{within};
ghost use Rattle.dagcbor.specs.Passed.{after, is_map_head, spells_map};

use crate::fault::CborFault;
use crate::head::{front, head};
use crate::link::link;
use crate::major::{Major, major_of};
use crate::reading::key;
use crate::text::text;
use crate::value::MAX_DEPTH;

/// The bytes after the head of a whole number, with a sign or without.
fn after_integer(n: u64, bytes: &[u8]) -> Result<&[u8], CborFault>
    ensures unsigned { Gives (λ x. x.now) cbor_fault_of result
        (after (integer_of pos n bytes.now)) }
    ensures negative { Gives (λ x. x.now) cbor_fault_of result
        (after (integer_of negsuc n bytes.now)) }
    ensures takes_no_memory { result ≢ Err CborFault.NoMemory }
{
    match i64::try_from(n) {
        Ok(_) => Ok(bytes),
        Err(_) => Err(CborFault::IntegerRange),
    }
}

/// The bytes after a value at the front, where lists and maps may lie this many levels deep.
#[cycle(passing)]
fn after_value(levels: u8, bytes: &[u8]) -> Result<&[u8], CborFault>
    ensures read { Gives (λ x. x.now) cbor_fault_of result (after (value_at levels bytes.now)) }
    ensures takes_no_memory { result ≢ Err CborFault.NoMemory }
{
    let ((major, n), rest) = head(bytes)?;
    after_content(levels, major_of(major), n, rest)
}

/// The bytes after what follows a head.
#[cycle(passing)]
fn after_content(levels: u8, major: Major, n: u64, bytes: &[u8]) -> Result<&[u8], CborFault>
    ensures read { Gives (λ x. x.now) cbor_fault_of result
        (after (content_of (within levels) (major_view major) n bytes.now)) }
    ensures takes_no_memory { result ≢ Err CborFault.NoMemory }
{
    match major {
        Major::UnsignedInteger | Major::NegativeInteger => after_integer(n, bytes),
        Major::ByteString => {
            let (_, rest) = front(n, bytes)?;
            Ok(rest)
        }
        Major::TextString => {
            let (_, rest) = text(n, bytes)?;
            Ok(rest)
        }
        Major::Array => after_list(levels, n, bytes),
        Major::Map => after_map(levels, n, bytes),
        Major::Tag => {
            let (_, rest) = link(n, bytes)?;
            Ok(rest)
        }
        Major::SimpleValue => Ok(bytes),
    }
}

/// The bytes after a list of `n` items.
#[cycle(passing)]
fn after_list(levels: u8, n: u64, bytes: &[u8]) -> Result<&[u8], CborFault>
    ensures read { Gives (λ x. x.now) cbor_fault_of result
        (after (content_of (within levels) Array n bytes.now)) }
    ensures takes_no_memory { result ≢ Err CborFault.NoMemory }
{
    if levels == 0 {
        return Err(CborFault::TooDeep);
    }
    after_items(levels - 1, n, bytes)
}

/// The bytes after a map of `n` pairs.
#[cycle(passing)]
fn after_map(levels: u8, n: u64, bytes: &[u8]) -> Result<&[u8], CborFault>
    ensures read { Gives (λ x. x.now) cbor_fault_of result
        (after (content_of (within levels) Map n bytes.now)) }
    ensures takes_no_memory { result ≢ Err CborFault.NoMemory }
{
    if levels == 0 {
        return Err(CborFault::TooDeep);
    }
    after_fields(levels - 1, n, bytes)
}

/// The bytes after `n` values that stand one after the other.
#[cycle(passing)]
fn after_items(levels: u8, n: u64, bytes: &[u8]) -> Result<&[u8], CborFault>
    ensures read { Gives (λ x. x.now) cbor_fault_of result
        (after (items_at (value_at levels) n bytes.now)) }
    ensures takes_no_memory { result ≢ Err CborFault.NoMemory }
{
    let mut rest = bytes;
    for _turn in 0..n {
        rest = after_value(levels, rest)?;
    }
    Ok(rest)
}

/// The bytes after `n` keys in order, each with a value.
#[cycle(passing)]
fn after_fields(levels: u8, n: u64, bytes: &[u8]) -> Result<&[u8], CborFault>
    ensures read { Gives (λ x. x.now) cbor_fault_of result
        (after (fields_at (value_at levels) None n bytes.now)) }
    ensures takes_no_memory { result ≢ Err CborFault.NoMemory }
{
    let mut before = None;
    let mut rest = bytes;
    for _turn in 0..n {
        let (key, behind) = key(before, rest)?;
        rest = after_value(levels, behind)?;
        before = Some(key);
    }
    Ok(rest)
}

/// Whether a head of this major type begins a map.
fn is_map(major: Major) -> bool
    ensures { result ≡ is_map_head (major_view major) }
{
    matches!(major, Major::Map)
}

/// Whether the value that these bytes are the spelling of (IPLD DAG-CBOR, strictness) is a map. Takes no memory.
///
/// An error says that the bytes are no value's spelling, and is the first fault from the left, as that of [`read`](crate::read).
/// It is never `NoMemory`.
pub fn spells_map(bytes: &[u8]) -> Result<bool, CborFault>
    ensures read { Gives (λ map. map) cbor_fault_of result (spells_map bytes.now) }
    ensures takes_no_memory { result ≢ Err CborFault.NoMemory }
{
    let ((major, n), rest) = head(bytes)?;
    let major = major_of(major);
    let rest = after_content(MAX_DEPTH, major, n, rest)?;
    if !rest.is_empty() {
        return Err(CborFault::Trailing);
    }
    Ok(is_map(major))
}
