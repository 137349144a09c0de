//! Want of memory.

use crate::fixtures::{Posts, changes, filled, opened, shard, told, written};
use crate::worked_bytes::WORKED;
use cid::Cid;
use event_writing::UntoldFault;
use refusing::Refusing;
use repo_fixtures::cores::end;
use std::alloc::Global;

/// Memory that refuses requests.
type Heap<'h> = &'h Refusing<Global>;

/// How many bytes the worked message has.
fn length_of<'h>(
    heap: Heap<'h>,
    core: &Posts<Heap<'h>>,
    before: Cid,
) -> Result<usize, UntoldFault> {
    match written(heap, core, before, &changes(), &told()) {
        Ok(message) => Ok(message.len()),
        Err(fault) => Err(fault),
    }
}

/// How a try ends in which one request is refused.
#[derive(PartialEq)]
enum Try {
    Refused,
    Whole,
    Wrong,
}

/// The try in which the request of this number is refused.
fn tried<'h>(heap: Heap<'h>, core: &Posts<Heap<'h>>, before: Cid, number: u64) -> Try {
    let live = heap.live();
    let refused = heap.refused();
    heap.refuse(number);
    let answer = length_of(heap, core, before);
    heap.refuse(0);
    if heap.live() != live {
        return Try::Wrong;
    }
    if heap.refused() == refused {
        return if answer == Ok(WORKED.len()) {
            Try::Whole
        } else {
            Try::Wrong
        };
    }
    if answer == Err(UntoldFault::NoMemory) {
        Try::Refused
    } else {
        Try::Wrong
    }
}

/// Whether each request that is refused is told, up to a try in which none is.
fn tells_each<'h>(heap: Heap<'h>, core: &Posts<Heap<'h>>, before: Option<Cid>) -> bool {
    let Some(before) = before else {
        return false;
    };
    for number in 1..2_000u64 {
        match tried(heap, core, before, number) {
            Try::Refused => {}
            Try::Whole => return number > 10,
            Try::Wrong => return false,
        }
    }
    false
}

#[test]
fn answers_each_refusal_of_memory(rt: HostRuntime) {
    let heap = Refusing::new(rt.alloc());
    let right = {
        let mut shard = shard(&heap);
        let mut core = opened(&rt, &heap, &mut shard);
        let before = filled(&heap, &mut shard, &mut core);
        let right = tells_each(&heap, &core, before);
        end(&mut shard, core);
        right
    };
    assert!(rt; right);
}
