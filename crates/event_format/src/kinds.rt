//! What a value is, where a map has it.

ghost use Rattle.std.specs.Prelude.{◌≡◌, option_map};
ghost use Rattle.cid.specs.CidRef.{bytes_of};
ghost use Rattle.dagcbor.specs.View.{view, view_items};
ghost use Rattle.event_laws.specs.Fields.{text_in, is_null, text_or_null_in, bytes_in, natural, count_in, flag_in, link_in, list_in, is_link, are_links, link_or_null_in, link_or_absent_in};

use cid::{Cid, CidRef};
use dagcbor::Value;
use std::alloc::Allocator;

/// The bytes of a text.
pub(crate) fn text_of<'a, A: Allocator>(value: Option<&Value<'a, A>>) -> Option<&'a [u8]>
    ensures { option_map (λ t. t.now) result
        ≡ text_in (option_map (λ v. view v.now) value.entry) }
{
    match value? {
        Value::Text(text) => Some(text.as_bytes()),
        _ => None,
    }
}

/// Whether it is null.
fn is_null<A: Allocator>(value: Option<&Value<'_, A>>) -> bool
    ensures { result ≡ is_null (option_map (λ v. view v.now) value.entry) }
{
    let Some(value) = value else {
        return false;
    };
    match value {
        Value::Null => true,
        _ => false,
    }
}

/// The bytes of a text, or none of null.
pub(crate) fn text_or_null<'a, A: Allocator>(
    value: Option<&Value<'a, A>>,
) -> Option<Option<&'a [u8]>>
    ensures { option_map (λ o. option_map (λ t. t.now) o) result
        ≡ text_or_null_in (option_map (λ v. view v.now) value.entry) }
{
    if is_null(value) {
        return Some(None);
    }
    match text_of(value) {
        Some(text) => Some(Some(text)),
        None => None,
    }
}

/// A byte string.
pub(crate) fn byte_string<'a, A: Allocator>(value: Option<&Value<'a, A>>) -> Option<&'a [u8]>
    ensures { option_map (λ t. t.now) result
        ≡ bytes_in (option_map (λ v. view v.now) value.entry) }
{
    match value? {
        Value::Bytes(bytes) => Some(*bytes),
        _ => None,
    }
}

/// A whole number that isn't below 0.
fn natural(number: i64) -> Option<u64>
    ensures { result ≡ natural number }
{
    if number >= 0 {
        Some(number as u64)
    } else {
        None
    }
}

/// A whole number that isn't below 0.
pub(crate) fn count_of<A: Allocator>(value: Option<&Value<'_, A>>) -> Option<u64>
    ensures { result ≡ count_in (option_map (λ v. view v.now) value.entry) }
{
    match value? {
        Value::Int(number) => natural(*number),
        _ => None,
    }
}

/// False or true.
pub(crate) fn flag_of<A: Allocator>(value: Option<&Value<'_, A>>) -> Option<bool>
    ensures { result ≡ flag_in (option_map (λ v. view v.now) value.entry) }
{
    match value? {
        Value::Bool(flag) => Some(*flag),
        _ => None,
    }
}

/// A link of this host's form: its CID.
pub(crate) fn link_of<'a, A: Allocator>(value: Option<&Value<'a, A>>) -> Option<CidRef<'a>>
    ensures { option_map bytes_of result ≡ link_in (option_map (λ v. view v.now) value.entry) }
{
    match value? {
        Value::Link(bytes) => CidRef::from_bytes(bytes),
        _ => None,
    }
}

/// The items of a list.
pub(crate) fn list_of<'v, 'a, A: Allocator>(
    value: Option<&'v Value<'a, A>>,
) -> Option<&'v Vec<Value<'a, A>, A>>
    ensures { option_map (λ vs. view_items vs.now.items) result
        ≡ list_in (option_map (λ v. view v.now) value.entry) }
{
    match value? {
        Value::List(items) => Some(items),
        _ => None,
    }
}

/// Whether it is a link, of whichever form.
fn is_link<A: Allocator>(value: &Value<'_, A>) -> bool
    ensures { result ≡ is_link (view value.now) }
{
    match value {
        Value::Link(_) => true,
        _ => false,
    }
}

/// Whether each item is a link.
pub(crate) fn are_links<A: Allocator>(items: &Vec<Value<'_, A>, A>) -> bool
    ensures { result ≡ are_links (view_items items.now.items) }
{
    for item in items {
        if !is_link(item) {
            return false;
        }
    }
    true
}

/// A link of this host's form, or none of null.
pub(crate) fn link_or_null<A: Allocator>(value: Option<&Value<'_, A>>) -> Option<Option<Cid>>
    ensures { result ≡ link_or_null_in (option_map (λ v. view v.now) value.entry) }
{
    if is_null(value) {
        return Some(None);
    }
    match link_of(value) {
        Some(cid) => Some(Some(cid.to_cid())),
        None => None,
    }
}

/// A link of this host's form, or none where nothing stands.
pub(crate) fn link_or_absent<A: Allocator>(value: Option<&Value<'_, A>>) -> Option<Option<Cid>>
    ensures { result ≡ link_or_absent_in (option_map (λ v. view v.now) value.entry) }
{
    if value.is_none() {
        return Some(None);
    }
    match link_of(value) {
        Some(cid) => Some(Some(cid.to_cid())),
        None => None,
    }
}
