//! Messages of a state.

use crate::fixtures::{Posts, SIG, TIME, filled, opened, shard};
use crate::sync_bytes::WORKED_SYNC;
use event_format::FormFault;
use event_writing::{SyncTold, UntoldFault, sync_event};
use refusing::Refusing;
use repo_fixtures::cores::end;
use std::alloc::Global;

/// Memory that refuses requests.
type Heap<'h> = &'h Refusing<Global>;

/// What is told beside the worked state.
fn told() -> SyncTold<'static> {
    SyncTold {
        seq: 5_000_000_000,
        time: TIME,
        sig: SIG,
    }
}

/// Whether the message is the worked one.
fn is_worked(alloc: Global, core: &Posts<Global>) -> bool {
    match sync_event(alloc, core, &told()) {
        Ok(message) => message.as_slice() == WORKED_SYNC,
        Err(_) => false,
    }
}

/// The fault of a message, or none where there is one.
fn fault_of(alloc: Global, core: &Posts<Global>, told: &SyncTold<'_>) -> Option<UntoldFault> {
    match sync_event(alloc, core, told) {
        Ok(_) => None,
        Err(fault) => Some(fault),
    }
}

/// What is told with this number and time.
fn telling<'t>(seq: u64, time: &'t [u8]) -> SyncTold<'t> {
    SyncTold {
        seq,
        time,
        sig: SIG,
    }
}

/// The fault of a message with a signature of so many bytes.
fn fault_of_long(alloc: Global, core: &Posts<Global>, bytes: usize) -> Option<UntoldFault> {
    let Ok(sig) = vec![in alloc; 7u8; bytes] else {
        return Some(UntoldFault::NoMemory);
    };
    let long = SyncTold {
        seq: 1,
        time: TIME,
        sig: &sig,
    };
    fault_of(alloc, core, &long)
}

/// Whether each fault comes, and its bound is the least.
fn tells_each(alloc: Global, core: &Posts<Global>) -> bool {
    let no_time = b"2024-01-01T00:00:00.000".as_slice();
    fault_of(alloc, core, &telling(1 << 63, no_time)) == Some(UntoldFault::BadSeq)
        && fault_of(alloc, core, &telling((1 << 63) - 1, TIME)).is_none()
        && fault_of(alloc, core, &telling(1, no_time))
            == Some(UntoldFault::Form(FormFault::BadTime))
        && fault_of_long(alloc, core, 9_779) == Some(UntoldFault::Form(FormFault::BlocksSize))
        && fault_of_long(alloc, core, 9_778).is_none()
}

#[test]
fn the_worked_state(rt: HostRuntime) {
    let alloc = rt.alloc();
    let mut shard = shard(alloc);
    let mut core = opened(&rt, alloc, &mut shard);
    let none = fault_of(alloc, &core, &telling(1 << 63, b"")) == Some(UntoldFault::NoBatch);
    let before = filled(alloc, &mut shard, &mut core);
    let right = before.is_some() && is_worked(alloc, &core) && tells_each(alloc, &core);
    end(&mut shard, core);
    assert!(rt; none && right);
}

/// How many requests are refused one after the other, each told, up to a try in which none is; or none where one isn't told.
fn refused_in_turn<'h>(heap: Heap<'h>, core: &Posts<Heap<'h>>) -> Option<u64> {
    let live = heap.live();
    for number in 1..200u64 {
        let refused = heap.refused();
        heap.refuse(number);
        let fault = match sync_event(heap, core, &told()) {
            Ok(_) => None,
            Err(fault) => Some(fault),
        };
        heap.refuse(0);
        if heap.live() != live {
            return None;
        }
        if heap.refused() == refused {
            return if fault.is_none() { Some(number) } else { None };
        }
        if fault != Some(UntoldFault::NoMemory) {
            return None;
        }
    }
    None
}

#[test]
fn tells_each_refusal_of_memory_for_a_state(rt: HostRuntime) {
    let heap = Refusing::new(rt.alloc());
    let right = {
        let mut shard = shard(&heap);
        let mut core = opened(&rt, &heap, &mut shard);
        let before = filled(&heap, &mut shard, &mut core);
        let tries = refused_in_turn(&heap, &core);
        end(&mut shard, core);
        before.is_some() && tries.is_some_and(|tries| tries > 4)
    };
    assert!(rt; right);
}
