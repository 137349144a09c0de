//! Writing of heads and values.

ghost use Rattle.std.specs.Prelude.{◌≡◌, ◌<◌, ◌++◌, Ok, OnOk, OnErr, IfOk, IsTrue, ◌∷◌};
ghost use Rattle.spec.specs.Head.{head};
ghost use Rattle.spec.specs.DagCbor.{string, spelling, spelling_of_integer, spelling_of_values, spelling_of_entries, is_lawful, read};
ghost use Rattle.dagcbor.specs.View.{view, view_items, view_fields};

use crate::link::{BEFORE_CID, LINK_HEAD};
use crate::major::Major;
use crate::value::Value;
use std::alloc::{AllocError, Allocator};

/// Puts the shortest head of a major type from 0 to 6 and an argument (RFC 8949, section 3; IPLD DAG-CBOR) at the end of `out`.
/// Where memory is refused, nothing is put there.
pub fn push_head<A: Allocator>(out: &mut Vec<u8, A>, kind: u8, n: u64) -> Result<(), AllocError>
    requires { kind < 7 }
    ensures ok { OnOk result (out.new.items ≡ out.old.items ++ head kind n) }
    ensures refused { OnErr result (out.new.items ≡ out.old.items) }
{
    let first = kind * 32;
    if n < 24 {
        out.push(first + n as u8)?;
        Ok(())
    } else if n < 0x100 {
        out.extend_from_slice(&[first + 24, n as u8])
    } else if n < 0x1_0000 {
        let [a, b] = (n as u16).to_be_bytes();
        out.extend_from_slice(&[first + 25, a, b])
    } else if n < 0x1_0000_0000 {
        let [a, b, c, d] = (n as u32).to_be_bytes();
        out.extend_from_slice(&[first + 26, a, b, c, d])
    } else {
        let [a, b, c, d, e, f, g, h] = n.to_be_bytes();
        out.extend_from_slice(&[first + 27, a, b, c, d, e, f, g, h])
    }
}

/// Puts a whole number at the end of `out`.
fn push_integer<A: Allocator>(out: &mut Vec<u8, A>, z: i64) -> Result<(), AllocError>
    ensures { OnOk result (out.new.items ≡ out.old.items ++ spelling_of_integer z) }
{
    if z >= 0 {
        push_head(out, Major::UnsignedInteger as u8, z as u64)
    } else {
        push_head(out, Major::NegativeInteger as u8, (-1 - z) as u64)
    }
}

/// Puts a byte string at the end of `out`.
fn push_bytes<A: Allocator>(out: &mut Vec<u8, A>, bytes: &[u8]) -> Result<(), AllocError>
    ensures { OnOk result (out.new.items ≡ out.old.items ++ string 2 bytes.now) }
{
    push_head(out, Major::ByteString as u8, bytes.len() as u64)?;
    out.extend_from_slice(bytes)
}

/// Puts a text at the end of `out`.
fn push_text<A: Allocator>(out: &mut Vec<u8, A>, text: &str) -> Result<(), AllocError>
    ensures { OnOk result (out.new.items ≡ out.old.items ++ string 3 text.now) }
{
    push_head(out, Major::TextString as u8, text.len() as u64)?;
    out.extend_from_slice(text.as_bytes())
}

/// Puts a link to a CID at the end of `out`.
fn push_link<A: Allocator>(out: &mut Vec<u8, A>, cid: &[u8]) -> Result<(), AllocError>
    ensures { OnOk result (out.new.items ≡ out.old.items ++ (head 6 42 ++ string 2 (0 ∷ cid.now))) }
{
    out.extend_from_slice(&LINK_HEAD)?;
    push_head(out, Major::ByteString as u8, cid.len() as u64 + 1)?;
    out.push(BEFORE_CID)?;
    out.extend_from_slice(cid)
}

/// Puts a value at the end of `out`.
#[cycle(push)]
fn push_value<A: Allocator, B: Allocator>(
    out: &mut Vec<u8, A>,
    value: &Value<'_, B>,
) -> Result<(), AllocError>
    ensures { OnOk result (out.new.items ≡ out.old.items ++ spelling (view value.now)) }
{
    match value {
        Value::Null => {
            out.push(0xf6)?;
            Ok(())
        }
        Value::Bool(b) => {
            out.push(if *b { 0xf5 } else { 0xf4 })?;
            Ok(())
        }
        Value::Int(z) => push_integer(out, *z),
        Value::Bytes(bytes) => push_bytes(out, bytes),
        Value::Text(text) => push_text(out, text),
        Value::List(items) => {
            push_head(out, Major::Array as u8, items.len() as u64)?;
            push_items(out, items)
        }
        Value::Map(fields) => {
            push_head(out, Major::Map as u8, fields.len() as u64)?;
            push_fields(out, fields)
        }
        Value::Link(cid) => push_link(out, cid),
    }
}

/// Puts values one after the other at the end of `out`.
#[cycle(push)]
fn push_items<A: Allocator, B: Allocator>(
    out: &mut Vec<u8, A>,
    items: &Vec<Value<'_, B>, B>,
) -> Result<(), AllocError>
    ensures { OnOk result (out.new.items ≡ out.old.items
        ++ spelling_of_values (view_items items.now.items)) }
{
    for item in items {
        push_value(out, item)?;
    }
    Ok(())
}

/// Puts keys, each with its value, at the end of `out`.
#[cycle(push)]
fn push_fields<A: Allocator, B: Allocator>(
    out: &mut Vec<u8, A>,
    fields: &Vec<(&str, Value<'_, B>), B>,
) -> Result<(), AllocError>
    ensures { OnOk result (out.new.items ≡ out.old.items
        ++ spelling_of_entries (view_fields fields.now.items)) }
{
    for field in fields {
        push_text(out, field.0)?;
        push_value(out, &field.1)?;
    }
    Ok(())
}

/// The one spelling of a value (IPLD DAG-CBOR, strictness). Condition: the value is lawful, which `is_lawful` tells.
/// It fails only where memory is refused.
pub fn write<A: Allocator, B: Allocator>(
    alloc: A,
    value: &Value<'_, B>,
) -> Result<Vec<u8, A>, AllocError>
    requires { IsTrue (is_lawful (view value.now)) }
    ensures spelled { IfOk result (λ out. out.items ≡ spelling (view value.now)) }
    ensures reads_back { IfOk result (λ out. read out.items ≡ Ok (view value.now)) }
{
    let mut out = Vec::new(alloc);
    push_value(&mut out, value)?;
    Ok(out)
}
