//! The notices that a closed host's queue was left with.
ghost use Rattle.std.specs.Prelude.{IfOk, OnOk};
ghost use Rattle.closing.specs.Settling.{IsAllTold};
ghost use Rattle.run_command.specs.Draining.{IsDrained};

use cid::Digest;
use closing::Closed;
use notices::Notice;
use std::alloc::{AllocError, Global};
use std::sync::Wait;

/// Takes all notices that are left in the queue, the oldest first. Then what was received of each writer, and after it what
/// the writer kept, is what it told.
pub(crate) fn drained<D: Digest, T: Wait>(
    rt: &T,
    alloc: Global,
    closed: &mut Closed<D, 2>,
) -> Result<Vec<Notice>, AllocError>
    ensures left { IfOk result (λ left. IsDrained closed.old left.items closed.new) }
    ensures told { OnOk result (IsAllTold closed.new.feed closed.new.ended) }
{
    let mut left = Vec::new(alloc);
    for _ in rt.forever() {
        match closed.next_left(rt) {
            Some(notice) => left.push(notice)?,
            None => break,
        }
    }
    Ok(left)
}
