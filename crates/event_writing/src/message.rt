//! The commit and the bytes of a message.

ghost use Rattle.std.specs.Prelude.{◌≡◌, IfOk};
ghost use Rattle.event_laws.specs.Events.{event_bytes};
ghost use Rattle.event_writing_laws.specs.Messages.{event_of};
ghost use Rattle.batches.specs.Values.{stamp_of};
ghost use Rattle.event_writing.specs.Views.{told_of};

use crate::told::Told;
use batches::Stamp;
use cid::{Cid, CidRef};
use event_format::{Event, write_event};
use key_changes::KeyChange;
use std::alloc::{AllocError, Allocator};

/// An operation again, whose key is lent from it.
fn lent<'m>(op: &'m KeyChange<'_>) -> KeyChange<'m>
    ensures { result ≡ op.now }
{
    KeyChange {
        key: op.key,
        before: op.before,
        after: op.after,
    }
}

/// Operations again.
fn lent_ops<'m, A: Allocator>(
    alloc: A,
    ops: &'m [KeyChange<'_>],
) -> Result<Vec<KeyChange<'m>, A>, AllocError>
    ensures { IfOk result (λ lent. lent.items ≡ ops.now) }
{
    let mut again = Vec::with_capacity(alloc, ops.len())?;
    for op in ops {
        again.push(lent(op))?;
    }
    Ok(again)
}

/// The bytes of a message.
pub(crate) fn message<'m, A: Allocator + Copy>(
    alloc: A,
    told: &'m Told<'_>,
    stamp: &'m Stamp<A>,
    commit: &'m Cid,
    file: &'m [u8],
    ops: &'m [KeyChange<'_>],
    before: &'m Cid,
) -> Result<Vec<u8, A>, AllocError>
    ensures { IfOk result (λ message. message.items ≡ event_bytes (event_of (told_of told.now)
        (stamp_of stamp.now) commit.now file.now ops.now before.now)) }
{
    let event = Event {
        seq: told.seq,
        did: &stamp.did,
        commit: CidRef::from(commit),
        since: told.since(),
        rev: &stamp.rev,
        blocks: file,
        ops: lent_ops(alloc, ops)?,
        time: told.time(),
        before: CidRef::from(before),
    };
    write_event(alloc, &event)
}
