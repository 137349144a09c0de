//! From a record to a word.
ghost use Rattle.std.specs.Prelude.{◌≡◌, is_some, option_map, IfOk, IsTrue};
ghost use Rattle.spec.specs.DagCbor.{is_lawful};
ghost use Rattle.dagcbor.specs.View.{view};
ghost use Rattle.hex.specs.Hex.{encode_lower};
ghost use Rattle.record_forms.specs.Records.{json_of_record as json_of_bytes, json_of_value as json_if_any, json_or_hex as json_or_hex_of, word_of_record as word_of_bytes};

use crate::form::Form;
use dagcbor::{CborFault, Value, read};
use record_json::{has_form, json_of};
use std::alloc::{AllocError, Allocator};

/// The word of a record in this form, by its bytes: for `Form::Hex` they are in hexadecimal, and for `Form::Json` the word is
/// their JSON, where they have one, and else hexadecimal too. `AllocError` comes where memory was refused.
pub fn word_of_record<A: Allocator + Copy>(
    alloc: A,
    form: Form,
    bytes: &[u8],
) -> Result<Vec<u8, A>, AllocError>
    ensures { IfOk result (λ word. word.items ≡ word_of_bytes form bytes.now) }
{
    match form {
        Form::Hex => hex_of(alloc, bytes),
        Form::Json => json_or_hex(alloc, bytes),
    }
}

/// The JSON of a record, or where it has none its bytes in hexadecimal.
fn json_or_hex<A: Allocator + Copy>(alloc: A, bytes: &[u8]) -> Result<Vec<u8, A>, AllocError>
    ensures { IfOk result (λ word. word.items ≡ json_or_hex_of bytes.now) }
{
    match json_of_record(alloc, bytes)? {
        Some(text) => Ok(text),
        None => hex_of(alloc, bytes),
    }
}

/// Bytes in hexadecimal.
fn hex_of<A: Allocator>(alloc: A, bytes: &[u8]) -> Result<Vec<u8, A>, AllocError>
    ensures { IfOk result (λ word. word.items ≡ encode_lower bytes.now) }
{
    Ok(hex::encode(alloc, bytes)?.into_bytes())
}

/// The one JSON text of a record by its bytes (AT Protocol data model), or `None` where it has none: the bytes are no DAG-CBOR,
/// or `record_json::has_form` says that their value has no form. `AllocError` comes where memory was refused.
pub fn json_of_record<A: Allocator + Copy>(
    alloc: A,
    bytes: &[u8],
) -> Result<Option<Vec<u8, A>>, AllocError>
    ensures { IfOk result (λ text.
        option_map (λ t. t.items) text ≡ json_of_bytes bytes.now) }
{
    match read(alloc, bytes) {
        Ok(value) => json_of_value(alloc, &value),
        Err(CborFault::NoMemory) => Err(AllocError),
        Err(_) => Ok(None),
    }
}

/// The JSON of a value, where it has one.
fn json_of_value<A: Allocator + Copy>(
    alloc: A,
    value: &Value<'_, A>,
) -> Result<Option<Vec<u8, A>>, AllocError>
    requires lawful { IsTrue (is_lawful (view value.now)) }
    ensures { IfOk result (λ text.
        option_map (λ t. t.items) text ≡ json_if_any (view value.now)) }
{
    if !has_form(value) {
        return Ok(None);
    }
    Ok(Some(json_of(alloc, value)?))
}

/// Whether a record has a JSON text, by its bytes. `AllocError` comes where memory was refused.
pub fn has_json<A: Allocator + Copy>(alloc: A, bytes: &[u8]) -> Result<bool, AllocError>
    ensures { IfOk result (λ has. has ≡ is_some (json_of_bytes bytes.now)) }
{
    match read(alloc, bytes) {
        Ok(value) => Ok(has_form(&value)),
        Err(CborFault::NoMemory) => Err(AllocError),
        Err(_) => Ok(false),
    }
}
