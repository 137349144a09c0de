//! Which values have a JSON form.

ghost use Rattle.std.specs.Prelude.{◌≡◌};
ghost use Rattle.spec.specs.Cid.{is_version_1};
ghost use Rattle.spec.specs.DagCbor.{is_lawful};
ghost use Rattle.dagcbor.specs.View.{view, view_items, view_fields};
ghost use Rattle.record_json.specs.Form.{is_reserved, is_safe, has_form, have_form, fields_have_form};

use dagcbor::Value;
use std::alloc::{Allocator, Global};

/// The greatest whole number that each reader of JSON holds exactly (RFC 7493, section 2.2): 2^53 - 1.
const MOST: i64 = 0x1f_ffff_ffff_ffff;

/// Whether a key stands for a link or for bytes, and so for no field (AT Protocol data model).
pub(crate) fn is_reserved(key: &str) -> bool
    ensures { result ≡ is_reserved key.now }
{
    key == "$link" || key == "$bytes"
}

/// Whether each reader of JSON holds the number exactly.
pub(crate) fn is_safe(z: i64) -> bool
    ensures { result ≡ is_safe z }
{
    -MOST <= z && z <= MOST
}

/// Whether these bytes are a CID of version 1: of the CIDs that a link may hold, those with another first byte than
/// version 0.
pub(crate) fn is_version_1(bytes: &[u8]) -> bool
    ensures { result ≡ is_version_1 bytes.now }
{
    if bytes.is_empty() || bytes[0] != 1 {
        return false;
    }
    dagcbor::is_lawful::<Global>(&Value::Link(bytes))
}

/// Whether a lawful value has a JSON form (AT Protocol data model): its whole numbers go from -(2^53 - 1) to 2^53 - 1,
/// its links have version 1, and none of its keys is `$link` or `$bytes`.
#[cycle(form)]
pub fn has_form<A: Allocator>(value: &Value<'_, A>) -> bool
    ensures { result ≡ has_form (view value.now) }
{
    match value {
        Value::Int(z) => is_safe(*z),
        Value::List(items) => have_form(items),
        Value::Map(fields) => fields_have_form(fields),
        Value::Link(cid) => is_version_1(cid),
        _ => true,
    }
}

#[cycle(form)]
fn have_form<A: Allocator>(items: &Vec<Value<'_, A>, A>) -> bool
    ensures { result ≡ have_form (view_items items.now.items) }
{
    for item in items {
        if !has_form(item) {
            return false;
        }
    }
    true
}

#[cycle(form)]
fn fields_have_form<A: Allocator>(fields: &Vec<(&str, Value<'_, A>), A>) -> bool
    ensures { result ≡ fields_have_form (view_fields fields.now.items) }
{
    for field in fields {
        if is_reserved(field.0) || !has_form(&field.1) {
            return false;
        }
    }
    true
}
