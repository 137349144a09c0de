//! What an operation is called, and an operation read from a value.

ghost use Rattle.std.specs.Prelude.{◌≡◌, option_map};
ghost use Rattle.dagcbor.specs.View.{view, view_fields};
ghost use Rattle.event_laws.specs.Ops.{action_of as action};
ghost use Rattle.event_laws.specs.Reading.{is_named, op_if as op_where, op_of as op_in, op_of_fields};

use crate::fields::value_of;
use crate::kinds::{link_or_absent, link_or_null, text_of};
use cid::Cid;
use dagcbor::Value;
use key_changes::KeyChange;
use record_rules::is_repository_key;
use std::alloc::Allocator;

/// What an operation is called that leaves another value than there was; none where it leaves the same.
pub fn action_of(before: &Option<Cid>, after: &Option<Cid>) -> Option<&'static [u8]>
    ensures { option_map (λ t. t.now) result ≡ action before.now after.now }
{
    match before {
        None => match after {
            None => None,
            Some(_) => Some(b"create".as_slice()),
        },
        Some(before) => match after {
            None => Some(b"delete".as_slice()),
            Some(after) => update(before, after),
        },
    }
}

/// What an operation is called where there was a record, and is one.
fn update(before: &Cid, after: &Cid) -> Option<&'static [u8]>
    ensures { option_map (λ t. t.now) result ≡ action (Some before.now) (Some after.now) }
{
    if before.is_same(after) {
        None
    } else {
        Some(b"update".as_slice())
    }
}

/// Whether an operation is called so.
fn is_named(wanted: Option<&[u8]>, name: &[u8]) -> bool
    ensures { result ≡ is_named (option_map (λ t. t.now) wanted.entry) name.now }
{
    match wanted {
        Some(wanted) => wanted == name,
        None => false,
    }
}

/// The operation of these parts, if it is one of a record and is called what it is.
fn op_if<'a>(
    action: &[u8],
    key: &'a [u8],
    before: Option<Cid>,
    after: Option<Cid>,
) -> Option<KeyChange<'a>>
    ensures { result ≡ op_where action.now
        (record { key = key.now; before = before; after = after }) }
{
    if is_repository_key(key) && is_named(action_of(&before, &after), action) {
        Some(KeyChange { key, before, after })
    } else {
        None
    }
}

/// The operation that these fields are, if they are one.
fn op_of_pairs<'a, A: Allocator>(pairs: &Vec<(&'a str, Value<'a, A>), A>) -> Option<KeyChange<'a>>
    ensures { result ≡ op_of_fields (view_fields pairs.now.items) }
{
    let action = text_of(value_of(pairs, "action"))?;
    let key = text_of(value_of(pairs, "path"))?;
    let after = link_or_null(value_of(pairs, "cid"))?;
    let before = link_or_absent(value_of(pairs, "prev"))?;
    op_if(action, key, before, after)
}

/// The operation that a value is, if it is one.
pub(crate) fn op_of<'a, A: Allocator>(value: &Value<'a, A>) -> Option<KeyChange<'a>>
    ensures { result ≡ op_in (view value.now) }
{
    match value {
        Value::Map(pairs) => op_of_pairs(pairs),
        _ => None,
    }
}
