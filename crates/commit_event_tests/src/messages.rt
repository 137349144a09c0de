//! The worked message with some parts changed, and its check.

use crate::parts::{PARTS, ROOT_BEFORE};
use cid::{CidRef, Sha256};
use commit_events::{CheckedCommit, EventFault, check_commit};
use std::alloc::{AllocError, Allocator, Global};

/// What stands at a place: what an edit puts there, or its own.
fn part<'a>(edits: &[(usize, &'a [u8])], place: usize, own: &'a [u8]) -> &'a [u8] {
    for (edited, bytes) in edits {
        if *edited == place {
            return bytes;
        }
    }
    own
}

/// The worked message with these parts in place of its own.
pub(crate) fn message_with(alloc: Global, edits: &[(usize, &[u8])]) -> Result<Vec<u8>, AllocError> {
    let mut out = Vec::new(alloc);
    for (place, own) in PARTS.iter().enumerate() {
        out.extend_from_slice(part(edits, place, own))?;
    }
    Ok(out)
}

/// What is said of a message, where the repository had the root before the worked one.
pub(crate) fn check<A: Allocator + Copy>(
    alloc: A,
    message: &[u8],
) -> Result<CheckedCommit<'_, A>, EventFault> {
    match CidRef::from_bytes(ROOT_BEFORE) {
        Some(root) => check_commit::<Sha256, 2, A>(alloc, root.to_cid(), message),
        None => Err(EventFault::OtherPrevious),
    }
}

/// The fault of a message, or none where it is taken or can't be made.
pub(crate) fn fault_of(alloc: Global, edits: &[(usize, &[u8])]) -> Option<EventFault> {
    let Ok(message) = message_with(alloc, edits) else {
        return None;
    };
    match check(alloc, &message) {
        Ok(_) => None,
        Err(fault) => Some(fault),
    }
}
