//! From JSON to DAG-CBOR.

ghost use Rattle.std.specs.Prelude.{◌≡◌, ◌++◌, map, string_bytes};
ghost use Rattle.json.specs.Json.{array, object, document};
ghost use Rattle.json.specs.Value.{value_view, items_view, members_view};
ghost use Rattle.spec.specs.Reading.{Gives};
ghost use Rattle.spec.specs.DagCbor.{string, spelling, spelling_of_values, spelling_of_entries};
ghost use Rattle.record_json.specs.Kinds.{kind_of};
ghost use Rattle.record_json.specs.Reading.{at_key, at_place, below, value_at, values_from, entries_of, or_not_json, value_of_json, integer_of, is_map_tree};
ghost use Rattle.record_json.specs.Puts.{Puts, PutsAt, Spells};

use crate::fault::{JsonFault, JsonFaultKind};
use crate::keys::{doubled_key, in_order};
use crate::leaves::{push_boolean, push_integer, push_null, push_text};
use crate::numbers::integer;
use crate::path::{put_key, put_place};
use crate::special::{has_reserved, push_special};
use dagcbor::{MAX_DEPTH, Major, push_head};
use json::{Error, Scratch, Value};
use std::alloc::Allocator;

/// The bytes in DAG-CBOR of the record that a JSON text is; or its first fault, and where that is: `NotJson`, or from the
/// outside in and by the order of keys in DAG-CBOR the first of `DoubledKey`, `Float`, `IntegerRange`, `BadLink`, `BadBytes`,
/// `BadDollar` and `TooDeep`, or `NotAMap`; or `NoMemory`.
pub fn dag_cbor_of<A: Allocator + Copy>(alloc: A, text: &str) -> Result<Vec<u8, A>, JsonFault<A>>
    ensures { Spells result (value_of_json text.now) }
{
    let mut out = Vec::new(alloc);
    let mut path = String::new(alloc);
    match push_record(alloc, &mut out, &mut path, text) {
        Ok(()) => Ok(out),
        Err(kind) => Err(JsonFault { kind, path }),
    }
}

/// Puts the record that a text is at the end of `out`, or the way to its fault before `path`.
fn push_record<A: Allocator + Copy>(
    alloc: A,
    out: &mut Vec<u8, A>,
    path: &mut String<A>,
    text: &str,
) -> Result<(), JsonFaultKind>
    ensures { PutsAt spelling result out.old.items out.new.items
        (string_bytes path.old) (string_bytes path.new) (value_of_json text.now) }
{
    let mut scratch = Scratch::new(alloc);
    let value = tree(alloc, text, &mut scratch)?;
    push_value(alloc, out, path, MAX_DEPTH, &value)?;
    if !is_map_tree(&value) {
        return Err(JsonFaultKind::NotAMap);
    }
    Ok(())
}

/// The tree that a text is as JSON.
fn tree<'a, A: Allocator + Copy>(
    alloc: A,
    text: &'a str,
    scratch: &'a mut Scratch<A>,
) -> Result<Value<'a, A>, JsonFaultKind>
    ensures { Gives value_view kind_of result (or_not_json (document text.now)) }
{
    match Value::parse(alloc, text, scratch) {
        Ok(value) => Ok(value),
        Err(Error::Invalid) => Err(JsonFaultKind::NotJson),
        // Of the other errors only this one comes from `parse`.
        Err(_) => Err(JsonFaultKind::NoMemory),
    }
}

/// Whether a tree means a map, if it means a value.
fn is_map_tree<A: Allocator>(value: &Value<'_, A>) -> bool
    ensures { result ≡ is_map_tree (value_view value.now) }
{
    match value {
        Value::Object(members) => !has_reserved(members),
        _ => false,
    }
}

/// Puts a number at the end of `out`.
fn push_number<A: Allocator>(out: &mut Vec<u8, A>, text: &str) -> Result<(), JsonFaultKind>
    ensures { Puts result out.old.items out.new.items (integer_of text.now) }
{
    push_integer(out, integer(text)?)?;
    Ok(())
}

/// Puts a value at the end of `out`, where lists and maps may lie this many levels deep; or puts the way to what is wrong
/// in it before `path`.
#[cycle(push)]
fn push_value<A: Allocator + Copy>(
    alloc: A,
    out: &mut Vec<u8, A>,
    path: &mut String<A>,
    levels: u8,
    value: &Value<'_, A>,
) -> Result<(), JsonFaultKind>
    ensures { PutsAt spelling result out.old.items out.new.items
        (string_bytes path.old) (string_bytes path.new) (value_at levels (value_view value.now)) }
{
    match value {
        Value::Null => {
            push_null(out)?;
            Ok(())
        }
        Value::Bool(b) => {
            push_boolean(out, *b)?;
            Ok(())
        }
        Value::Number(text) => push_number(out, text),
        Value::String(text) => {
            push_text(out, text)?;
            Ok(())
        }
        Value::Array(items) => push_list(alloc, out, path, levels, items),
        Value::Object(members) => push_object(alloc, out, path, levels, members),
    }
}

#[cycle(push)]
fn push_list<A: Allocator + Copy>(
    alloc: A,
    out: &mut Vec<u8, A>,
    path: &mut String<A>,
    levels: u8,
    items: &Vec<Value<'_, A>, A>,
) -> Result<(), JsonFaultKind>
    ensures { PutsAt spelling result out.old.items out.new.items
        (string_bytes path.old) (string_bytes path.new)
        (value_at levels (array (items_view items.now.items))) }
{
    if levels == 0 {
        return Err(JsonFaultKind::TooDeep);
    }
    push_head(out, Major::Array as u8, items.len() as u64)?;
    push_items(alloc, out, path, levels - 1, items)
}

/// Puts values one after the other.
#[cycle(push)]
fn push_items<A: Allocator + Copy>(
    alloc: A,
    out: &mut Vec<u8, A>,
    path: &mut String<A>,
    levels: u8,
    items: &[Value<'_, A>],
) -> Result<(), JsonFaultKind>
    ensures { PutsAt spelling_of_values result out.old.items out.new.items
        (string_bytes path.old) (string_bytes path.new)
        (values_from levels 0 (items_view items.now)) }
{
    for i in 0..items.len() {
        push_item(alloc, out, path, levels, i, &items[i])?;
    }
    Ok(())
}

/// Puts the value at a place in a list.
#[cycle(push)]
fn push_item<A: Allocator + Copy>(
    alloc: A,
    out: &mut Vec<u8, A>,
    path: &mut String<A>,
    levels: u8,
    place: usize,
    item: &Value<'_, A>,
) -> Result<(), JsonFaultKind>
    ensures { PutsAt spelling result out.old.items out.new.items
        (string_bytes path.old) (string_bytes path.new)
        (below (at_place place) (value_at levels (value_view item.now))) }
{
    match push_value(alloc, out, path, levels, item) {
        Ok(()) => Ok(()),
        Err(kind) => {
            put_place(alloc, path, place)?;
            Err(kind)
        }
    }
}

#[cycle(push)]
fn push_object<'a, A: Allocator + Copy>(
    alloc: A,
    out: &mut Vec<u8, A>,
    path: &mut String<A>,
    levels: u8,
    members: &Vec<(&'a str, Value<'a, A>), A>,
) -> Result<(), JsonFaultKind>
    ensures { PutsAt spelling result out.old.items out.new.items
        (string_bytes path.old) (string_bytes path.new)
        (value_at levels (object (members_view members.now.items))) }
{
    let sorted = in_order(alloc, members)?;
    if let Some(key) = doubled_key(&sorted) {
        put_key(alloc, path, key)?;
        return Err(JsonFaultKind::DoubledKey);
    }
    if has_reserved(members) {
        return push_special(alloc, out, members);
    }
    if levels == 0 {
        return Err(JsonFaultKind::TooDeep);
    }
    push_head(out, Major::Map as u8, sorted.len() as u64)?;
    push_members(alloc, out, path, levels - 1, &sorted)
}

/// Puts keys, each with its value, one after the other.
#[cycle(push)]
fn push_members<'a, A: Allocator + Copy>(
    alloc: A,
    out: &mut Vec<u8, A>,
    path: &mut String<A>,
    levels: u8,
    members: &Vec<&(&'a str, Value<'a, A>), A>,
) -> Result<(), JsonFaultKind>
    ensures { PutsAt spelling_of_entries result out.old.items out.new.items
        (string_bytes path.old) (string_bytes path.new)
        (entries_of (map (λ m. (m.now.0.now, value_at levels (value_view m.now.1)))
        members.now.items)) }
{
    for i in 0..members.len() {
        push_member(alloc, out, path, levels, members[i])?;
    }
    Ok(())
}

/// Puts a key and its value.
#[cycle(push)]
fn push_member<'a, A: Allocator + Copy>(
    alloc: A,
    out: &mut Vec<u8, A>,
    path: &mut String<A>,
    levels: u8,
    member: &(&'a str, Value<'a, A>),
) -> Result<(), JsonFaultKind>
    ensures { PutsAt (λ v. string 3 member.now.0.now ++ spelling v) result
        out.old.items out.new.items (string_bytes path.old) (string_bytes path.new)
        (below (at_key member.now.0.now) (value_at levels (value_view member.now.1))) }
{
    push_text(out, member.0)?;
    match push_value(alloc, out, path, levels, &member.1) {
        Ok(()) => Ok(()),
        Err(kind) => {
            put_key(alloc, path, member.0)?;
            Err(kind)
        }
    }
}
