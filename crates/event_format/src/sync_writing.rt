//! The spelling of a message of a state.

ghost use Rattle.std.specs.Prelude.{◌≡◌, ◌++◌, IfOk, OnOk};
ghost use Rattle.spec.specs.DagCbor.{spelling_of_entries};
ghost use Rattle.event_laws.specs.Syncs.{fields_of_sync, sync_bytes};
ghost use Rattle.event_format.specs.Syncs.{sync_of};

use crate::parts::{push_bytes_field, push_text_field};
use crate::sync_event::{SYNC_HEADER, SyncEvent};
use crate::writing::push_seq_field;
use dagcbor::{Major, push_head};
use std::alloc::{AllocError, Allocator};

/// The bytes of a message `#sync` that says this. It fails only where memory is refused.
pub fn write_sync<A: Allocator>(alloc: A, sync: &SyncEvent<'_>) -> Result<Vec<u8, A>, AllocError>
    ensures { IfOk result (λ out. out.items ≡ sync_bytes (sync_of sync.now)) }
{
    let mut out = Vec::new(alloc);
    out.extend_from_slice(SYNC_HEADER)?;
    push_head(&mut out, Major::Map as u8, 5)?;
    push_fields(&mut out, sync)?;
    Ok(out)
}

/// Puts all fields: did, rev, seq, time and blocks.
fn push_fields<A: Allocator>(out: &mut Vec<u8, A>, sync: &SyncEvent<'_>) -> Result<(), AllocError>
    ensures { OnOk result (out.new.items ≡ out.old.items
        ++ spelling_of_entries (fields_of_sync (sync_of sync.now))) }
{
    push_text_field(out, b"did", sync.did)?;
    push_text_field(out, b"rev", sync.rev)?;
    push_seq_field(out, sync.seq)?;
    push_text_field(out, b"time", sync.time)?;
    push_bytes_field(out, b"blocks", sync.blocks)
}
