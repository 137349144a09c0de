//! The fields of a map, by their names.

ghost use Rattle.std.specs.Prelude.{◌≡◌, option_map};
ghost use Rattle.spec.specs.Reading.{Gives};
ghost use Rattle.cid.specs.CidRef.{bytes_of};
ghost use Rattle.dagcbor.specs.View.{view, view_fields, view_items};
ghost use Rattle.event_laws.specs.Fields.{bytes_in, count_in, field as field_in, field_name, flag_in, link_in, list_in, text_in, text_or_null_in};
ghost use Rattle.event_laws.specs.Reading.{taken};
ghost use Rattle.event_format.specs.Views.{form_fault_of, name_of};

use crate::fault::{Field, FormFault};
use crate::kinds::{
    byte_string, count_of, flag_of, link_of, list_of, text_of, text_or_null as text_or_null_of,
};
use cid::CidRef;
use dagcbor::Value;
use std::alloc::Allocator;

/// The value under this name, if there is one.
pub(crate) fn value_of<'v, 'a, A: Allocator>(
    pairs: &'v Vec<(&'a str, Value<'a, A>), A>,
    name: &str,
) -> Option<&'v Value<'a, A>>
    ensures { option_map (λ v. view v.now) result
        ≡ field_in name.now (view_fields pairs.now.items) }
{
    for pair in pairs {
        if pair.0 == name {
            return Some(&pair.1);
        }
    }
    None
}

/// A field's name in the message.
fn name(field: Field) -> &'static str
    ensures { result.now ≡ field_name (name_of field) }
{
    match field {
        Field::Ops => "ops",
        Field::Rev => "rev",
        Field::Seq => "seq",
        Field::Repo => "repo",
        Field::Time => "time",
        Field::Blobs => "blobs",
        Field::Since => "since",
        Field::Blocks => "blocks",
        Field::Commit => "commit",
        Field::Rebase => "rebase",
        Field::TooBig => "tooBig",
        Field::PrevData => "prevData",
    }
}

/// The text of a field.
pub(crate) fn text<'a, A: Allocator>(
    pairs: &Vec<(&'a str, Value<'a, A>), A>,
    field: Field,
) -> Result<&'a [u8], FormFault>
    ensures { Gives (λ t. t.now) form_fault_of result
        (taken text_in (name_of field) (view_fields pairs.now.items)) }
{
    match text_of(value_of(pairs, name(field))) {
        Some(text) => Ok(text),
        None => Err(FormFault::BadField(field)),
    }
}

/// The text of a field, or none of null.
pub(crate) fn text_or_null<'a, A: Allocator>(
    pairs: &Vec<(&'a str, Value<'a, A>), A>,
    field: Field,
) -> Result<Option<&'a [u8]>, FormFault>
    ensures { Gives (λ o. option_map (λ t. t.now) o) form_fault_of result
        (taken text_or_null_in (name_of field) (view_fields pairs.now.items)) }
{
    match text_or_null_of(value_of(pairs, name(field))) {
        Some(text) => Ok(text),
        None => Err(FormFault::BadField(field)),
    }
}

/// The byte string of a field.
pub(crate) fn bytes<'a, A: Allocator>(
    pairs: &Vec<(&'a str, Value<'a, A>), A>,
    field: Field,
) -> Result<&'a [u8], FormFault>
    ensures { Gives (λ b. b.now) form_fault_of result
        (taken bytes_in (name_of field) (view_fields pairs.now.items)) }
{
    match byte_string(value_of(pairs, name(field))) {
        Some(bytes) => Ok(bytes),
        None => Err(FormFault::BadField(field)),
    }
}

/// The number of a field, which isn't below 0.
pub(crate) fn count<'a, A: Allocator>(
    pairs: &Vec<(&'a str, Value<'a, A>), A>,
    field: Field,
) -> Result<u64, FormFault>
    ensures { Gives (λ n. n) form_fault_of result
        (taken count_in (name_of field) (view_fields pairs.now.items)) }
{
    match count_of(value_of(pairs, name(field))) {
        Some(count) => Ok(count),
        None => Err(FormFault::BadField(field)),
    }
}

/// Whether a field is true.
pub(crate) fn flag<'a, A: Allocator>(
    pairs: &Vec<(&'a str, Value<'a, A>), A>,
    field: Field,
) -> Result<bool, FormFault>
    ensures { Gives (λ b. b) form_fault_of result
        (taken flag_in (name_of field) (view_fields pairs.now.items)) }
{
    match flag_of(value_of(pairs, name(field))) {
        Some(flag) => Ok(flag),
        None => Err(FormFault::BadField(field)),
    }
}

/// The CID of a field that is a link of this host's form.
pub(crate) fn link<'a, A: Allocator>(
    pairs: &Vec<(&'a str, Value<'a, A>), A>,
    field: Field,
) -> Result<CidRef<'a>, FormFault>
    ensures { Gives bytes_of form_fault_of result
        (taken link_in (name_of field) (view_fields pairs.now.items)) }
{
    match link_of(value_of(pairs, name(field))) {
        Some(cid) => Ok(cid),
        None => Err(FormFault::BadField(field)),
    }
}

/// The items of a field that is a list.
pub(crate) fn items<'v, 'a, A: Allocator>(
    pairs: &'v Vec<(&'a str, Value<'a, A>), A>,
    field: Field,
) -> Result<&'v Vec<Value<'a, A>, A>, FormFault>
    ensures { Gives (λ vs. view_items vs.now.items) form_fault_of result
        (taken list_in (name_of field) (view_fields pairs.now.items)) }
{
    match list_of(value_of(pairs, name(field))) {
        Some(items) => Ok(items),
        None => Err(FormFault::BadField(field)),
    }
}
