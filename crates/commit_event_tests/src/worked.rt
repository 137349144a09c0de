//! The worked message.

use crate::messages::{check, message_with};
use crate::parts::ROOT_AFTER;
use commit_events::CheckedCommit;
use key_changes::KeyChange;
use std::alloc::Global;

/// Whether an operation is of this key, and whether there was a record and is one.
fn is_op(op: &KeyChange<'_>, key: &[u8], was: bool, is: bool) -> bool {
    op.key == key && op.before.is_some() == was && op.after.is_some() == is
}

/// Whether these are the worked message's operations, in its order.
fn are_worked_ops(ops: &[KeyChange<'_>]) -> bool {
    match ops {
        [one, two, three] => {
            is_op(one, b"posts/12", true, true)
                && is_op(two, b"posts/10", false, true)
                && is_op(three, b"posts/11", true, false)
        }
        _ => false,
    }
}

/// Whether this is what the worked message says.
fn is_worked(checked: &CheckedCommit<'_, Global>) -> bool {
    checked.event.did == b"did:plc:ewvi7nxzyoun6zhxrhs64oiz".as_slice()
        && checked.event.rev == b"3jzfcijpj2z2a".as_slice()
        && checked.commit.root.as_bytes().as_slice() == ROOT_AFTER
        && checked.commit.sig.len() == 64
        && checked.sections.len() == 8
        && are_worked_ops(&checked.event.ops)
}

/// Whether a message is taken as the worked one.
fn is_taken(alloc: Global, message: &[u8]) -> bool {
    match check(alloc, message) {
        Ok(checked) => is_worked(&checked),
        Err(_) => false,
    }
}

#[test]
fn the_worked_message(rt: HostRuntime) {
    let message = message_with(rt.alloc(), &[]).expect(&rt, "a message");
    assert!(rt; is_taken(rt.alloc(), &message));
}
