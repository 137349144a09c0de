//! From a value to JSON.

ghost use Rattle.std.specs.Prelude.{◌≡◌, ◌++◌, Some, OnOk, IfOk, IsTrue};
ghost use Rattle.std.specs.Str.{IsUtf8};
ghost use Rattle.json.specs.Json.{document};
ghost use Rattle.json.specs.Tree.{json_tokens, items_tokens, members_tokens};
ghost use Rattle.spec.specs.DagCbor.{Bytes, Link, is_lawful};
ghost use Rattle.dagcbor.specs.View.{view, view_items, view_fields};
ghost use Rattle.record_json.specs.Form.{wrapped, tree_of, trees_of, members_of, json_of, has_form};

use crate::base32::cid_text;
use base64::engine::general_purpose::STANDARD_NO_PAD_INDIFFERENT;
use dagcbor::Value;
use json::Writer;
use std::alloc::{AllocError, Allocator};

/// The one JSON text of a value (AT Protocol data model): its keys in the order of DAG-CBOR, no spaces, the shortest
/// escapes, base 64 without padding. Conditions: the value is lawful, which `dagcbor::read` gives and
/// `dagcbor::is_lawful` tells, and it has such a form, which `has_form` tells. It fails only where memory is refused.
pub fn json_of<A: Allocator + Copy, B: Allocator>(
    alloc: A,
    value: &Value<'_, B>,
) -> Result<Vec<u8, A>, AllocError>
    requires lawful { IsTrue (is_lawful (view value.now)) }
    requires form { IsTrue (has_form (view value.now)) }
    ensures text { IfOk result (λ out. out.items ≡ json_of (view value.now)) }
    ensures is_json { IfOk result (λ out. document out.items ≡ Some (tree_of (view value.now))) }
    ensures utf8 { IfOk result (λ out. IsUtf8 out.items) }
{
    let mut out = Writer::new(Vec::new(alloc));
    write_value(alloc, &mut out, value)?;
    Ok(out.into_inner())
}

/// Writes an object of one member, a text.
fn write_wrapped<A: Allocator>(out: &mut Writer<A>, key: &str, text: &str) -> Result<(), AllocError>
    ensures before { out.new.before ≡ out.old.before }
    ensures written { OnOk result (out.new.tokens
        ≡ out.old.tokens ++ json_tokens (wrapped key.now text.now)) }
{
    out.begin_object()?;
    out.key(key)?;
    out.string(text)?;
    out.end_object()
}

/// Writes bytes in base 64.
fn write_bytes<A: Allocator>(alloc: A, out: &mut Writer<A>, bytes: &[u8]) -> Result<(), AllocError>
    ensures before { out.new.before ≡ out.old.before }
    ensures written { OnOk result (out.new.tokens
        ≡ out.old.tokens ++ json_tokens (tree_of (Bytes bytes.now))) }
{
    let text = STANDARD_NO_PAD_INDIFFERENT.encode(alloc, bytes)?;
    write_wrapped(out, "$bytes", text.as_str())
}

/// Writes a link by the text of its CID.
fn write_link<A: Allocator>(alloc: A, out: &mut Writer<A>, cid: &[u8]) -> Result<(), AllocError>
    ensures before { out.new.before ≡ out.old.before }
    ensures written { OnOk result (out.new.tokens
        ≡ out.old.tokens ++ json_tokens (tree_of (Link cid.now))) }
{
    let text = cid_text(alloc, cid)?;
    write_wrapped(out, "$link", str::from_utf8(&text).unwrap())
}

#[cycle(write)]
fn write_value<A: Allocator + Copy, B: Allocator>(
    alloc: A,
    out: &mut Writer<A>,
    value: &Value<'_, B>,
) -> Result<(), AllocError>
    ensures before { out.new.before ≡ out.old.before }
    ensures written { OnOk result (out.new.tokens
        ≡ out.old.tokens ++ json_tokens (tree_of (view value.now))) }
{
    match value {
        Value::Null => out.null(),
        Value::Bool(b) => out.boolean(*b),
        Value::Int(z) => out.i64(*z),
        Value::Bytes(bytes) => write_bytes(alloc, out, bytes),
        Value::Text(text) => out.string(text),
        Value::List(items) => {
            out.begin_array()?;
            write_items(alloc, out, items)
        }
        Value::Map(fields) => {
            out.begin_object()?;
            write_fields(alloc, out, fields)
        }
        Value::Link(cid) => write_link(alloc, out, cid),
    }
}

/// Writes the items and the bracket behind them.
#[cycle(write)]
fn write_items<A: Allocator + Copy, B: Allocator>(
    alloc: A,
    out: &mut Writer<A>,
    items: &Vec<Value<'_, B>, B>,
) -> Result<(), AllocError>
    ensures before { out.new.before ≡ out.old.before }
    ensures written { OnOk result (out.new.tokens
        ≡ out.old.tokens ++ items_tokens (trees_of (view_items items.now.items))) }
{
    for item in items {
        write_value(alloc, out, item)?;
    }
    out.end_array()
}

/// Writes the fields and the brace behind them.
#[cycle(write)]
fn write_fields<A: Allocator + Copy, B: Allocator>(
    alloc: A,
    out: &mut Writer<A>,
    fields: &Vec<(&str, Value<'_, B>), B>,
) -> Result<(), AllocError>
    ensures before { out.new.before ≡ out.old.before }
    ensures written { OnOk result (out.new.tokens
        ≡ out.old.tokens ++ members_tokens (members_of (view_fields fields.now.items))) }
{
    for field in fields {
        out.key(field.0)?;
        write_value(alloc, out, &field.1)?;
    }
    out.end_object()
}
