//! What the bytes of a message say, as far as that needs no blocks.

ghost use Rattle.spec.specs.Reading.{Gives};
ghost use Rattle.spec.specs.DagCbor.{read};
ghost use Rattle.dagcbor.specs.View.{view, view_fields};
ghost use Rattle.event_laws.specs.Reading.{body_of, event_of_fields, event_of_value, or_cbor, read_event as reading};
ghost use Rattle.event_format.specs.Views.{event_of, form_fault_of};

use crate::event::{Event, HEADER};
use crate::fault::FormFault;
use crate::ops_reading::ops_of;
use crate::said::{fields_said, test_said};
use dagcbor::{CborFault, Value};
use event_times::limits::MOST_MESSAGE_BYTES;
use std::alloc::Allocator;

/// What a message says, or its first fault, in the order of `FormFault`; `NoMemory` comes where memory for reading it was
/// refused. What it says is lent from its bytes.
#[tactic(auto, unfolding(event_laws::specs::Reading::read_event))]
pub fn read_event<'a, A: Allocator + Copy>(
    alloc: A,
    message: &'a [u8],
) -> Result<Event<'a, A>, FormFault>
    ensures { Gives event_of form_fault_of result (reading message.now) }
{
    let body = body(message)?;
    let value = value(alloc, body)?;
    value_event(alloc, &value)
}

/// What stands behind the first value.
#[tactic(auto, unfolding(event_laws::specs::Reading::body_of))]
fn body(message: &[u8]) -> Result<&[u8], FormFault>
    ensures { Gives (λ b. b.now) form_fault_of result (body_of message.now) }
{
    if message.len() > MOST_MESSAGE_BYTES {
        return Err(FormFault::MessageSize);
    }
    message.strip_prefix(HEADER).ok_or(FormFault::NotCommit)
}

/// The second value.
fn value<'a, A: Allocator + Copy>(alloc: A, body: &'a [u8]) -> Result<Value<'a, A>, FormFault>
    ensures { Gives view form_fault_of result (or_cbor (read body.now)) }
{
    match dagcbor::read(alloc, body) {
        Ok(value) => Ok(value),
        Err(CborFault::NoMemory) => Err(FormFault::NoMemory),
        Err(fault) => Err(FormFault::Cbor(fault)),
    }
}

/// What a value says as a message.
fn value_event<'a, A: Allocator + Copy>(
    alloc: A,
    value: &Value<'a, A>,
) -> Result<Event<'a, A>, FormFault>
    ensures { Gives event_of form_fault_of result (event_of_value (view value.now)) }
{
    match value {
        Value::Map(pairs) => pairs_event(alloc, pairs),
        _ => Err(FormFault::NotAMap),
    }
}

/// What the fields of a map say as a message.
#[tactic(auto, unfolding(event_laws::specs::Reading::event_of_fields))]
fn pairs_event<'a, A: Allocator + Copy>(
    alloc: A,
    pairs: &Vec<(&'a str, Value<'a, A>), A>,
) -> Result<Event<'a, A>, FormFault>
    ensures { Gives event_of form_fault_of result
        (event_of_fields (view_fields pairs.now.items)) }
{
    let said = fields_said(pairs)?;
    test_said(&said)?;
    let ops = ops_of(alloc, said.items)?;
    Ok(Event {
        seq: said.seq,
        did: said.did,
        commit: said.commit,
        rev: said.rev,
        since: said.since,
        blocks: said.blocks,
        ops,
        time: said.time,
        before: said.before,
    })
}
