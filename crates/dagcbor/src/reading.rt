//! Reading of values, from left to right.

ghost use Rattle.std.specs.Prelude.{◌≡◌, ◌≢◌, Err, pos, negsuc, option_map, IfOk, IfErr, IsTrue, IsSome};
ghost use Rattle.spec.specs.Reading.{Gives};
ghost use Rattle.spec.specs.Head.{Array, Map};
ghost use Rattle.spec.specs.DagCbor.{integer_of, key_of, link_of, simple_value, items_at, fields_at, content_of, value_at, read, spelling, is_lawful};
ghost use Rattle.dagcbor.specs.Fault.{cbor_fault_of};
ghost use Rattle.dagcbor.specs.View.{view, view_items, view_fields};
ghost use Rattle.dagcbor.specs.Majors.{major_view};
ghost use Rattle.dagcbor.specs.Levels.{within};
ghost use Rattle.dagcbor.specs.Refused.{HasNoValue};

use crate::fault::CborFault;
use crate::head::{front, head, head_of};
use crate::keys::is_next_key;
use crate::link::link;
use crate::major::{Major, major_of};
use crate::room::make_room;
use crate::text::text;
use crate::value::{MAX_DEPTH, Value};
use std::alloc::Allocator;

/// A key that may follow the one before it, where there is one, and the bytes after it.
#[inline(always)]
pub(crate) fn key<'a>(
    before: Option<&str>,
    bytes: &'a [u8],
) -> Result<(&'a str, &'a [u8]), CborFault>
    ensures read { Gives (λ x. (x.0.now, x.1.now)) cbor_fault_of result
        (key_of (option_map (λ s. s.now) before.entry) bytes.now) }
    ensures takes_no_memory { result ≢ Err CborFault.NoMemory }
{
    let (n, rest) = head_of(Major::TextString as u8, CborFault::KeyNotText, bytes)?;
    let (key, rest) = text(n, rest)?;
    if is_next_key(before, key) {
        Ok((key, rest))
    } else {
        Err(CborFault::KeyOrder)
    }
}

/// A map's first key, and the bytes after it.
#[inline(always)]
fn first_key(bytes: &[u8]) -> Result<(&str, &[u8]), CborFault>
    ensures { Gives (λ x. (x.0.now, x.1.now)) cbor_fault_of result (key_of None bytes.now) }
{
    let (n, rest) = head_of(Major::TextString as u8, CborFault::KeyNotText, bytes)?;
    text(n, rest)
}

/// The whole number n, and the bytes after its head.
#[inline(always)]
fn unsigned<'a, A: Allocator>(
    n: u64,
    bytes: &'a [u8],
) -> Result<(Value<'a, A>, &'a [u8]), CborFault>
    ensures { Gives (λ x. (view x.0, x.1.now)) cbor_fault_of result (integer_of pos n bytes.now) }
{
    match i64::try_from(n) {
        Ok(z) => Ok((Value::Int(z), bytes)),
        Err(_) => Err(CborFault::IntegerRange),
    }
}

/// The whole number -1 - n, and the bytes after its head.
#[inline(always)]
fn negative<'a, A: Allocator>(
    n: u64,
    bytes: &'a [u8],
) -> Result<(Value<'a, A>, &'a [u8]), CborFault>
    ensures { Gives (λ x. (view x.0, x.1.now)) cbor_fault_of result
        (integer_of negsuc n bytes.now) }
{
    match i64::try_from(n) {
        Ok(z) => Ok((Value::Int(-1 - z), bytes)),
        Err(_) => Err(CborFault::IntegerRange),
    }
}

/// The simple value of this number: 20 is false, 21 is true, and 22 is null.
fn simple_value<'a, A: Allocator>(n: u64) -> Value<'a, A>
    ensures { view result ≡ simple_value n }
{
    match n {
        20 => Value::Bool(false),
        21 => Value::Bool(true),
        _ => Value::Null,
    }
}

/// A value at the front, where lists and maps may lie this many levels deep, and the bytes after it.
#[cycle(value)]
#[inline(always)]
fn value<'a, A: Allocator + Copy>(
    alloc: A,
    levels: u8,
    bytes: &'a [u8],
) -> Result<(Value<'a, A>, &'a [u8]), CborFault>
    ensures { Gives (λ x. (view x.0, x.1.now)) cbor_fault_of result (value_at levels bytes.now) }
{
    let ((major, n), rest) = head(bytes)?;
    content(alloc, levels, major_of(major), n, rest)
}

/// What follows a head, and the bytes after it.
#[cycle(value)]
#[inline(always)]
fn content<'a, A: Allocator + Copy>(
    alloc: A,
    levels: u8,
    major: Major,
    n: u64,
    bytes: &'a [u8],
) -> Result<(Value<'a, A>, &'a [u8]), CborFault>
    ensures { Gives (λ x. (view x.0, x.1.now)) cbor_fault_of result
        (content_of (within levels) (major_view major) n bytes.now) }
{
    match major {
        Major::UnsignedInteger => unsigned(n, bytes),
        Major::NegativeInteger => negative(n, bytes),
        Major::ByteString => {
            let (content, rest) = front(n, bytes)?;
            Ok((Value::Bytes(content), rest))
        }
        Major::TextString => {
            let (content, rest) = text(n, bytes)?;
            Ok((Value::Text(content), rest))
        }
        Major::Array => list(alloc, levels, n, bytes),
        Major::Map => map(alloc, levels, n, bytes),
        Major::Tag => tagged(n, bytes),
        Major::SimpleValue => Ok((simple_value(n), bytes)),
    }
}

/// A link behind the head of its tag, and the bytes after it.
#[inline(always)]
fn tagged<'a, A: Allocator>(
    tag: u64,
    bytes: &'a [u8],
) -> Result<(Value<'a, A>, &'a [u8]), CborFault>
    ensures { Gives (λ x. (view x.0, x.1.now)) cbor_fault_of result (link_of tag bytes.now) }
{
    let (cid, rest) = link(tag, bytes)?;
    Ok((Value::Link(cid), rest))
}

/// A list of `n` items, and the bytes after it.
#[cycle(value)]
#[inline(always)]
fn list<'a, A: Allocator + Copy>(
    alloc: A,
    levels: u8,
    n: u64,
    bytes: &'a [u8],
) -> Result<(Value<'a, A>, &'a [u8]), CborFault>
    ensures { Gives (λ x. (view x.0, x.1.now)) cbor_fault_of result
        (content_of (within levels) Array n bytes.now) }
{
    if levels == 0 {
        return Err(CborFault::TooDeep);
    }
    let (items, rest) = items(alloc, levels - 1, n, bytes)?;
    Ok((Value::List(items), rest))
}

/// A map of `n` pairs, and the bytes after it.
#[cycle(value)]
#[inline(always)]
fn map<'a, A: Allocator + Copy>(
    alloc: A,
    levels: u8,
    n: u64,
    bytes: &'a [u8],
) -> Result<(Value<'a, A>, &'a [u8]), CborFault>
    ensures { Gives (λ x. (view x.0, x.1.now)) cbor_fault_of result
        (content_of (within levels) Map n bytes.now) }
{
    if levels == 0 {
        return Err(CborFault::TooDeep);
    }
    let (fields, rest) = fields(alloc, levels - 1, n, bytes)?;
    Ok((Value::Map(fields), rest))
}

/// A map of one pair, and the bytes after it.
#[cycle(value)]
#[inline(always)]
fn map_of_one<'a, A: Allocator + Copy>(
    alloc: A,
    levels: u8,
    bytes: &'a [u8],
) -> Result<(Value<'a, A>, &'a [u8]), CborFault>
    ensures { Gives (λ x. (view x.0, x.1.now)) cbor_fault_of result
        (content_of (within levels) Map 1 bytes.now) }
{
    if levels == 0 {
        return Err(CborFault::TooDeep);
    }
    let (fields, rest) = one_field(alloc, levels - 1, bytes)?;
    Ok((Value::Map(fields), rest))
}

/// An item of a list, and the bytes after it: as `value`, but a map of one pair, the densest item that takes memory, is
/// read in place.
#[cycle(value)]
#[inline(always)]
fn item<'a, A: Allocator + Copy>(
    alloc: A,
    levels: u8,
    bytes: &'a [u8],
) -> Result<(Value<'a, A>, &'a [u8]), CborFault>
    ensures { Gives (λ x. (view x.0, x.1.now)) cbor_fault_of result (value_at levels bytes.now) }
{
    let ((major, n), rest) = head(bytes)?;
    if major == Major::Map as u8 && n == 1 {
        map_of_one(alloc, levels, rest)
    } else {
        content(alloc, levels, major_of(major), n, rest)
    }
}

/// `n` values one after the other, and the bytes after them.
#[cycle(value)]
#[inline(never)]
fn items<'a, A: Allocator + Copy>(
    alloc: A,
    levels: u8,
    n: u64,
    bytes: &'a [u8],
) -> Result<(Vec<Value<'a, A>, A>, &'a [u8]), CborFault>
    ensures { Gives (λ x. (view_items x.0.items, x.1.now)) cbor_fault_of result
        (items_at (value_at levels) n bytes.now) }
{
    let mut items = Vec::new(alloc);
    let mut rest = bytes;
    for _turn in 0..n {
        let (item, after) = item(alloc, levels, rest)?;
        make_room(&mut items, n, after)?;
        items.push(item)?;
        rest = after;
    }
    Ok((items, rest))
}

/// `n` keys in order, each with a value, and the bytes after them.
#[cycle(value)]
#[inline(never)]
fn fields<'a, A: Allocator + Copy>(
    alloc: A,
    levels: u8,
    n: u64,
    bytes: &'a [u8],
) -> Result<(Vec<(&'a str, Value<'a, A>), A>, &'a [u8]), CborFault>
    ensures { Gives (λ x. (view_fields x.0.items, x.1.now)) cbor_fault_of result
        (fields_at (value_at levels) None n bytes.now) }
{
    let mut fields = Vec::new(alloc);
    let mut before = None;
    let mut rest = bytes;
    for _turn in 0..n {
        let (key, after) = key(before, rest)?;
        let (value, after) = value(alloc, levels, after)?;
        make_room(&mut fields, n, after)?;
        fields.push((key, value))?;
        before = Some(key);
        rest = after;
    }
    Ok((fields, rest))
}

/// A key and a value, and the bytes after them.
#[cycle(value)]
#[inline(always)]
fn one_field<'a, A: Allocator + Copy>(
    alloc: A,
    levels: u8,
    bytes: &'a [u8],
) -> Result<(Vec<(&'a str, Value<'a, A>), A>, &'a [u8]), CborFault>
    ensures { Gives (λ x. (view_fields x.0.items, x.1.now)) cbor_fault_of result
        (fields_at (value_at levels) None 1 bytes.now) }
{
    let (key, after) = first_key(bytes)?;
    let (value, rest) = value(alloc, levels, after)?;
    let mut fields = Vec::with_capacity(alloc, 1)?;
    fields.push((key, value))?;
    Ok((fields, rest))
}

/// The value that these bytes are the spelling of (IPLD DAG-CBOR, strictness). Its bytes and texts are slices of `bytes`.
///
/// Any other error than `NoMemory` says that the bytes are no value's spelling, and is the first fault from the left.
/// Lists and maps may lie `MAX_DEPTH` levels deep; a deeper one is `TooDeep`. No memory is asked for by a number alone that
/// the bytes state: a list or map takes room when its first item has been read, and then for 128 items at once at most.
#[tactic(auto, unfolding(spec::specs::DagCbor::read))]
pub fn read<'a, A: Allocator + Copy>(alloc: A, bytes: &'a [u8]) -> Result<Value<'a, A>, CborFault>
    ensures read { Gives view cbor_fault_of result (read bytes.now) }
    ensures spelled { IfOk result (λ v. bytes.now ≡ spelling (view v)) }
    ensures lawful { IfOk result (λ v. IsTrue (is_lawful (view v))) }
    ensures refused { IfErr result (λ e. IsSome (cbor_fault_of e) → HasNoValue bytes.now) }
{
    let (value, rest) = value(alloc, MAX_DEPTH, bytes)?;
    if !rest.is_empty() {
        return Err(CborFault::Trailing);
    }
    Ok(value)
}
