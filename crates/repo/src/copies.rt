//! What is kept of a batch as it was given.

ghost use Rattle.std.specs.Prelude.{◌≡◌, ◌≤◌, ◌+◌, ◌++◌, ◌∷◌, [], length, IfOk, OnOk};
ghost use Rattle.std.specs.Vec.{vec_capacity, vec_len};
ghost use Rattle.batches.specs.Values.{stamp_of, stamps_of, writes_of, shared_writes};

use batches::{Stamp, Write};
use std::alloc::{AllocError, Allocator};
use std::sync::Arc;

/// Copies of a batch's writes and of its stamp.
#[derive(Drop)]
pub(crate) struct Copies<A: Allocator> {
    pub(crate) writes: Vec<Arc<Write<A>, A>, A>,
    pub(crate) stamp: Stamp<A>,
}

/// The copies of these.
pub(crate) fn copies_of<A: Allocator + Copy>(
    alloc: A,
    stamp: &Stamp<A>,
    writes: &[Write<A>],
) -> Result<Copies<A>, AllocError>
    ensures writes { IfOk result (λ copies.
        shared_writes copies.writes.items ≡ writes_of writes.now) }
    ensures stamp { IfOk result (λ copies. stamp_of copies.stamp ≡ stamp_of stamp.now) }
{
    let stamp = stamp.copied(alloc)?;
    let mut shared = Vec::with_capacity(alloc, writes.len())?;
    for write in writes {
        let copy = write.share(alloc)?;
        shared.push(copy)?;
    }
    Ok(Copies {
        writes: shared,
        stamp,
    })
}

/// Makes room in both lists: for so many writes, and for their stamp. The lists stay as they are.
pub(crate) fn make_room<A: Allocator>(
    accepted: &mut Vec<Arc<Write<A>, A>, A>,
    stamps: &mut Vec<(Stamp<A>, u64), A>,
    writes: usize,
) -> Result<(), AllocError>
    ensures same_writes { accepted.new.items ≡ accepted.old.items }
    ensures same_stamps { stamps.new.items ≡ stamps.old.items }
    ensures writes { OnOk result (vec_len accepted.new + writes ≤ vec_capacity accepted.new) }
    ensures stamps { OnOk result (vec_len stamps.new + 1 ≤ vec_capacity stamps.new) }
{
    accepted.reserve(writes)?;
    stamps.reserve(1)
}

/// Puts the copies to the others, where there is room, and answers how many writes there are then.
pub(crate) fn grow<A: Allocator>(
    accepted: &mut Vec<Arc<Write<A>, A>, A>,
    stamps: &mut Vec<(Stamp<A>, u64), A>,
    copies: Copies<A>,
) -> u64
    requires writes { vec_len accepted.old + length copies.writes.items
        ≤ vec_capacity accepted.old }
    requires stamps { vec_len stamps.old + 1 ≤ vec_capacity stamps.old }
    ensures writes { shared_writes accepted.new.items
        ≡ shared_writes accepted.old.items ++ shared_writes copies.writes.items }
    ensures stamps { stamps_of stamps.new.items
        ≡ stamps_of stamps.old.items ++ (stamp_of copies.stamp, length accepted.new.items) ∷ [] }
    ensures number { result ≡ length accepted.new.items }
{
    let Copies { writes, stamp } = copies;
    for write in writes {
        accepted.push_reserved(write);
    }
    let number = accepted.len() as u64;
    stamps.push_reserved((stamp, number));
    number
}
