//! JSON as bytes, and the texts of links by themselves.

ghost use Rattle.std.specs.Prelude.{◌≡◌, option_map, IfOk};
ghost use Rattle.record_json.specs.LinkText.{link_of_text};
ghost use Rattle.record_json.specs.Puts.{Spells};
ghost use Rattle.record_json.specs.Texts.{text_of_link, value_of_json_text};

use crate::base32::{cid_of_text, cid_text};
use crate::fault::{JsonFault, JsonFaultKind};
use crate::form::is_version_1;
use crate::reading::dag_cbor_of;
use std::alloc::{AllocError, Allocator};

/// The same as [`dag_cbor_of`](crate::dag_cbor_of) of bytes that may not be UTF-8: then they are no JSON either (RFC 8259,
/// section 8.1), and the fault is `NotJson`.
pub fn dag_cbor_of_bytes<A: Allocator + Copy>(
    alloc: A,
    bytes: &[u8],
) -> Result<Vec<u8, A>, JsonFault<A>>
    ensures { Spells result (value_of_json_text bytes.now) }
{
    let Ok(text) = str::from_utf8(bytes) else {
        return Err(JsonFault {
            kind: JsonFaultKind::NotJson,
            path: String::new(alloc),
        });
    };
    dag_cbor_of(alloc, text)
}

/// The text in which a link holds a CID of version 1 (AT Protocol data model; multibase b), whatever its codec and hash are, as
/// the CID of a blob has codec raw; or `None` where the bytes are no such CID. `AllocError` says that memory was refused.
pub fn link_text<A: Allocator>(alloc: A, cid: &[u8]) -> Result<Option<Vec<u8, A>>, AllocError>
    ensures { IfOk result (λ text. option_map (λ bytes. bytes.items) text ≡ text_of_link cid.now) }
{
    if !is_version_1(cid) {
        return Ok(None);
    }
    Ok(Some(cid_text(alloc, cid)?))
}

/// The CID of version 1 that a link holds in this text, which has no other one; or `None` where it is none's. `AllocError` says
/// that memory was refused.
pub fn cid_of_link<A: Allocator + Copy>(
    alloc: A,
    text: &[u8],
) -> Result<Option<Vec<u8, A>>, AllocError>
    ensures { IfOk result (λ cid. option_map (λ bytes. bytes.items) cid ≡ link_of_text text.now) }
{
    cid_of_text(alloc, text)
}
