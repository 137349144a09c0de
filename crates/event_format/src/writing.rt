//! The spelling of a message.

ghost use Rattle.std.specs.Prelude.{◌≡◌, ◌++◌, IfOk, OnOk, codes, pos};
ghost use Rattle.spec.specs.DagCbor.{Fields, Integer, Items, NoValue, string, spelling, spelling_of_entries, spelling_of_values};
ghost use Rattle.event_laws.specs.Ops.{fields_of_op, values_of_ops};
ghost use Rattle.event_laws.specs.Events.{event_bytes, fields_of_event, last_fields, middle_fields};
ghost use Rattle.event_format.specs.Views.{event_of};
ghost use Rattle.event_format.specs.Parts.{op_size, prev_bytes};

use crate::event::{Event, HEADER};
use crate::ops::action_of;
use crate::parts::{
    push_bytes_field, push_false_field, push_link_field, push_link_or_null_field, push_text,
    push_text_field, push_text_or_null_field,
};
use cid::{Cid, CidRef};
use dagcbor::{Major, push_head};
use key_changes::KeyChange;
use std::alloc::{AllocError, Allocator};

/// The bytes of a message that says this. `blobs` are none, and `rebase` and `tooBig` false. It fails only where memory is
/// refused.
pub fn write_event<A: Allocator>(alloc: A, event: &Event<'_, A>) -> Result<Vec<u8, A>, AllocError>
    ensures { IfOk result (λ out. out.items ≡ event_bytes (event_of event.now)) }
{
    let mut out = Vec::new(alloc);
    out.extend_from_slice(HEADER)?;
    push_head(&mut out, Major::Map as u8, 12)?;
    push_first(&mut out, event)?;
    Ok(out)
}

/// Puts all fields: ops, rev, seq and repo, and those behind them.
fn push_first<A: Allocator>(out: &mut Vec<u8, A>, event: &Event<'_, A>) -> Result<(), AllocError>
    ensures { OnOk result (out.new.items ≡ out.old.items
        ++ spelling_of_entries (fields_of_event (event_of event.now))) }
{
    push_ops_field(out, &event.ops)?;
    push_text_field(out, b"rev", event.rev)?;
    push_seq_field(out, event.seq)?;
    push_text_field(out, b"repo", event.did)?;
    push_middle(out, event)
}

/// Puts the fields from time on: time, blobs, since and blocks, and those behind them.
fn push_middle<A: Allocator>(out: &mut Vec<u8, A>, event: &Event<'_, A>) -> Result<(), AllocError>
    ensures { OnOk result (out.new.items ≡ out.old.items
        ++ spelling_of_entries (middle_fields (event_of event.now))) }
{
    push_text_field(out, b"time", event.time)?;
    push_no_blobs(out)?;
    push_text_or_null_field(out, b"since", event.since)?;
    push_bytes_field(out, b"blocks", event.blocks)?;
    push_last(out, event)
}

/// Puts the fields from commit on: commit, rebase, tooBig and prevData.
fn push_last<A: Allocator>(out: &mut Vec<u8, A>, event: &Event<'_, A>) -> Result<(), AllocError>
    ensures { OnOk result (out.new.items ≡ out.old.items
        ++ spelling_of_entries (last_fields (event_of event.now))) }
{
    push_link_field(out, b"commit", event.commit)?;
    push_false_field(out, b"rebase")?;
    push_false_field(out, b"tooBig")?;
    push_link_field(out, b"prevData", event.before)
}

/// Puts the field seq.
pub(crate) fn push_seq_field<A: Allocator>(out: &mut Vec<u8, A>, seq: u64) -> Result<(), AllocError>
    ensures { OnOk result (out.new.items ≡ out.old.items
        ++ (string 3 (codes "seq") ++ spelling (Integer (pos seq)))) }
{
    push_text(out, b"seq")?;
    push_head(out, Major::UnsignedInteger as u8, seq)
}

/// Puts the field blobs, an empty list.
fn push_no_blobs<A: Allocator>(out: &mut Vec<u8, A>) -> Result<(), AllocError>
    ensures { OnOk result (out.new.items ≡ out.old.items
        ++ (string 3 (codes "blobs") ++ spelling (Items NoValue))) }
{
    push_text(out, b"blobs")?;
    out.extend_from_slice(b"\x80")
}

/// Puts the field ops.
fn push_ops_field<A: Allocator>(
    out: &mut Vec<u8, A>,
    ops: &Vec<KeyChange<'_>, A>,
) -> Result<(), AllocError>
    ensures { OnOk result (out.new.items ≡ out.old.items
        ++ (string 3 (codes "ops") ++ spelling (Items (values_of_ops ops.now.items)))) }
{
    push_text(out, b"ops")?;
    push_head(out, Major::Array as u8, ops.len() as u64)?;
    push_ops(out, ops)
}

/// Puts operations one after the other.
fn push_ops<A: Allocator>(
    out: &mut Vec<u8, A>,
    ops: &Vec<KeyChange<'_>, A>,
) -> Result<(), AllocError>
    ensures { OnOk result (out.new.items ≡ out.old.items
        ++ spelling_of_values (values_of_ops ops.now.items)) }
{
    for op in ops {
        push_op(out, op)?;
    }
    Ok(())
}

/// Puts an operation.
fn push_op<A: Allocator>(out: &mut Vec<u8, A>, op: &KeyChange<'_>) -> Result<(), AllocError>
    ensures { OnOk result (out.new.items ≡ out.old.items
        ++ spelling (Fields (fields_of_op op.now))) }
{
    push_op_of(out, op.key, &op.before, &op.after)
}

/// Puts the operation of these parts: cid, path, prev, where there is one, and action.
fn push_op_of<A: Allocator>(
    out: &mut Vec<u8, A>,
    key: &[u8],
    before: &Option<Cid>,
    after: &Option<Cid>,
) -> Result<(), AllocError>
    ensures { OnOk result (out.new.items ≡ out.old.items ++ spelling (Fields (fields_of_op
        (record { key = key.now; before = before.now; after = after.now })))) }
{
    push_head(out, Major::Map as u8, size_of_op(before))?;
    push_link_or_null_field(out, b"cid", after)?;
    push_text_field(out, b"path", key)?;
    push_prev(out, before)?;
    push_text_or_null_field(out, b"action", action_of(before, after))
}

/// How many fields an operation has.
fn size_of_op(before: &Option<Cid>) -> u64
    ensures { result ≡ op_size before.now }
{
    match before {
        Some(_) => 4,
        None => 3,
    }
}

/// Puts the field prev, where there was a record.
fn push_prev<A: Allocator>(out: &mut Vec<u8, A>, before: &Option<Cid>) -> Result<(), AllocError>
    ensures { OnOk result (out.new.items ≡ out.old.items ++ prev_bytes before.now) }
{
    match before {
        Some(cid) => push_link_field(out, b"prev", CidRef::from(cid)),
        None => Ok(()),
    }
}
