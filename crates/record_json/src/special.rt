//! Objects that stand for a link or for bytes.

ghost use Rattle.std.specs.Prelude.{◌≡◌};
ghost use Rattle.json.specs.Value.{value_view, members_view};
ghost use Rattle.record_json.specs.Reading.{link_in, bytes_in, has_reserved, special_of};
ghost use Rattle.record_json.specs.Puts.{Puts};

use crate::base32::cid_of_text;
use crate::fault::JsonFaultKind;
use crate::form::is_reserved;
use crate::leaves::{push_bytes, push_link};
use base64::DecodeAllocError;
use base64::engine::general_purpose::STANDARD_NO_PAD_INDIFFERENT;
use json::Value;
use std::alloc::Allocator;

/// Whether a key stands for a link or for bytes.
pub(crate) fn has_reserved<A: Allocator>(members: &Vec<(&str, Value<'_, A>), A>) -> bool
    ensures { result ≡ has_reserved (members_view members.now.items) }
{
    for member in members {
        if is_reserved(member.0) {
            return true;
        }
    }
    false
}

/// Puts what such an object stands for at the end of `out`.
pub(crate) fn push_special<A: Allocator + Copy>(
    alloc: A,
    out: &mut Vec<u8, A>,
    members: &Vec<(&str, Value<'_, A>), A>,
) -> Result<(), JsonFaultKind>
    ensures { Puts result out.old.items out.new.items
        (special_of (members_view members.now.items)) }
{
    if members.len() != 1 {
        return Err(JsonFaultKind::BadDollar);
    }
    let member = &members[0];
    if member.0 == "$link" {
        push_link_in(alloc, out, &member.1)
    } else {
        push_bytes_in(alloc, out, &member.1)
    }
}

/// Puts the link whose text this is.
fn push_link_in<A: Allocator + Copy>(
    alloc: A,
    out: &mut Vec<u8, A>,
    value: &Value<'_, A>,
) -> Result<(), JsonFaultKind>
    ensures { Puts result out.old.items out.new.items (link_in (value_view value.now)) }
{
    let Value::String(text) = value else {
        return Err(JsonFaultKind::BadLink);
    };
    match cid_of_text(alloc, text.as_bytes())? {
        Some(cid) => {
            push_link(out, &cid)?;
            Ok(())
        }
        None => Err(JsonFaultKind::BadLink),
    }
}

/// Puts the bytes whose text in base 64 this is.
fn push_bytes_in<A: Allocator + Copy>(
    alloc: A,
    out: &mut Vec<u8, A>,
    value: &Value<'_, A>,
) -> Result<(), JsonFaultKind>
    ensures { Puts result out.old.items out.new.items (bytes_in (value_view value.now)) }
{
    let Value::String(text) = value else {
        return Err(JsonFaultKind::BadBytes);
    };
    match STANDARD_NO_PAD_INDIFFERENT.decode(alloc, text.as_bytes()) {
        Ok(bytes) => {
            push_bytes(out, &bytes)?;
            Ok(())
        }
        Err(DecodeAllocError::OutOfMemory) => Err(JsonFaultKind::NoMemory),
        Err(_) => Err(JsonFaultKind::BadBytes),
    }
}
