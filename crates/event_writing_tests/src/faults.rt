//! Each fault.

use crate::fixtures::{
    A, B, C, D, Posts, SINCE, change, changes, filled, keys, opened, shard, told, written,
};
use cid::Cid;
use event_format::FormFault;
use event_writing::{Told, UntoldFault};
use key_changes::KeyChange;
use repo_fixtures::cores::end;
use std::alloc::{AllocError, Global};

/// The fault of a message of the worked batch, or none where there is one.
fn fault_of(
    alloc: Global,
    core: &Posts<Global>,
    changes: &[KeyChange<'_>],
    told: &Told<'_>,
) -> Option<UntoldFault> {
    match written(alloc, core, core.root(), changes, told) {
        Ok(_) => None,
        Err(fault) => Some(fault),
    }
}

/// Whether what is told beside the worked batch has this fault.
fn is_untold(alloc: Global, core: &Posts<Global>, told: &Told<'_>, fault: UntoldFault) -> bool {
    fault_of(alloc, core, &changes(), told) == Some(fault)
}

/// What is told with this number, time and revision before.
fn telling<'t>(seq: u64, time: &'t [u8], since: &'t [u8]) -> Told<'t> {
    let usual = told();
    Told {
        seq,
        time,
        since: Some(since),
        sig: usual.sig,
    }
}

/// Whether each fault of what is told beside the batch comes.
fn beside(alloc: Global, core: &Posts<Global>) -> bool {
    let time = told().time;
    is_untold(
        alloc,
        core,
        &telling(1 << 63, time, SINCE),
        UntoldFault::BadSeq,
    ) && is_untold(
        alloc,
        core,
        &telling(1, time, b"3jzfcijpj2y2"),
        UntoldFault::Form(FormFault::BadSince),
    ) && is_untold(
        alloc,
        core,
        &telling(1, time, b"3jzfcijpj2z2a"),
        UntoldFault::Form(FormFault::RevOrder),
    ) && is_untold(
        alloc,
        core,
        &telling(1, b"2024-01-01T00:00:00.000", SINCE),
        UntoldFault::Form(FormFault::BadTime),
    )
}

/// Whether changes of the worked batch have this fault.
fn are_untold(
    alloc: Global,
    core: &Posts<Global>,
    changes: &[KeyChange<'_>],
    fault: UntoldFault,
) -> bool {
    fault_of(alloc, core, changes, &told()) == Some(fault)
}

/// Whether each fault of changes comes. The places pass over a change that changes nothing.
fn of_changes(alloc: Global, core: &Posts<Global>) -> bool {
    let no_path = [
        change(b"posts/10", Some(A), Some(A)),
        change(b"posts/11", Some(B), None),
        change(b"posts/12", Some(D), Some(C)),
        change(b"posts12", Some(D), None),
    ];
    let other = [
        change(b"posts/10", Some(A), Some(A)),
        change(b"posts/11", Some(B), None),
        change(b"posts/12", Some(C), Some(D)),
    ];
    are_untold(
        alloc,
        core,
        &no_path,
        UntoldFault::Form(FormFault::BadOp(2)),
    ) && are_untold(alloc, core, &other, UntoldFault::OtherValue(1))
}

/// The creation of a record under each of these keys.
fn creates<'k>(alloc: Global, keys: &'k [[u8; 9]]) -> Result<Vec<KeyChange<'k>>, AllocError> {
    let mut changes = Vec::new(alloc);
    for key in keys {
        changes.push(change(key, None, Some(A)))?;
    }
    Ok(changes)
}

/// The fault of so many creates, none of which this repository has seen.
fn fault_of_many(alloc: Global, core: &Posts<Global>, count: u8) -> Option<UntoldFault> {
    let Ok(keys) = keys(alloc, count) else {
        return None;
    };
    match creates(alloc, &keys) {
        Ok(changes) => fault_of(alloc, core, &changes, &told()),
        Err(_) => None,
    }
}

/// Whether 201 operations are too many, and 200 aren't.
fn many(alloc: Global, core: &Posts<Global>) -> bool {
    fault_of_many(alloc, core, 201) == Some(UntoldFault::Form(FormFault::TooManyOps))
        && fault_of_many(alloc, core, 200) == Some(UntoldFault::OtherValue(0))
}

/// Whether a repository without a batch has no message.
fn no_batch(alloc: Global, core: &Posts<Global>) -> bool {
    fault_of(alloc, core, &[], &told()) == Some(UntoldFault::NoBatch)
}

/// Whether the message can be made, so that nothing but its own faults are seen.
fn whole(alloc: Global, core: &Posts<Global>, before: Option<Cid>) -> bool {
    before.is_some() && fault_of(alloc, core, &changes(), &told()).is_none()
}

#[test]
fn faults(rt: HostRuntime) {
    let alloc = rt.alloc();
    let mut shard = shard(alloc);
    let mut core = opened(&rt, alloc, &mut shard);
    let none = no_batch(alloc, &core);
    let before = filled(alloc, &mut shard, &mut core);
    let right = whole(alloc, &core, before)
        && beside(alloc, &core)
        && of_changes(alloc, &core)
        && many(alloc, &core);
    end(&mut shard, core);
    assert!(rt; none && right);
}
