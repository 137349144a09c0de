//! The worked message.

use crate::fixtures::{Posts, changes, filled, opened, shard, told, written};
use crate::worked_bytes::WORKED;
use cid::{Cid, Sha256};
use commit_events::check_commit;
use repo_fixtures::cores::end;
use std::alloc::Global;

/// Whether a message is taken, with three operations and seven blocks.
fn is_taken(alloc: Global, before: Cid, message: &[u8]) -> bool {
    match check_commit::<Sha256, 2, Global>(alloc, before, message) {
        Ok(checked) => checked.event.ops.len() == 3 && checked.sections.len() == 7,
        Err(_) => false,
    }
}

/// Whether the message of the worked batch is the worked one.
fn is_worked(alloc: Global, core: &Posts<Global>, before: Option<Cid>) -> bool {
    let Some(before) = before else {
        return false;
    };
    match written(alloc, core, before, &changes(), &told()) {
        Ok(message) => message.as_slice() == WORKED && is_taken(alloc, before, &message),
        Err(_) => false,
    }
}

#[test]
fn the_worked_message(rt: HostRuntime) {
    let alloc = rt.alloc();
    let mut shard = shard(alloc);
    let mut core = opened(&rt, alloc, &mut shard);
    let before = filled(alloc, &mut shard, &mut core);
    let right = is_worked(alloc, &core, before);
    end(&mut shard, core);
    assert!(rt; right);
}
