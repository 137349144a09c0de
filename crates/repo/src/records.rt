//! The blocks of the records that a batch brings.

ghost use Rattle.std.specs.Prelude.{◌≡◌, ◌<◌, ◌↔◌, Some, length, map as each, IsTrue, IfOk, IfErr};
ghost use Rattle.std.specs.Arc.{arc_value};
ghost use Rattle.batch_laws.specs.Uses.{records_come};
ghost use Rattle.block.specs.Bytes.{shared_record};
ghost use Rattle.repo.specs.Tested.{changes_in};

use crate::changes::Collected;
use batches::Write;
use block::Block;
use cid::Digest;
use std::alloc::{AllocError, Allocator};
use std::sync::Arc;

/// The blocks of the records that these writes leave, whose changes these are, in the order of their keys. They are hashed
/// several side by side where the digest can do that. Each keeps its write, so no record is copied.
///
/// Where memory for one is refused, the place of a write of its record, and 0 where it is refused for all of them.
pub(crate) fn blocks_of_records<D: Digest, A: Allocator + Copy>(
    alloc: A,
    changes: &Collected<'_, A>,
    writes: &[Arc<Write<A>, A>],
) -> Result<Vec<Arc<Block<D, A>, A>, A>, usize>
    requires { 0 < length writes.now }
    ensures made { IfOk result (λ blocks.
        each arc_value blocks.items ≡ records_come (changes_in changes.now)) }
    ensures place { IfErr result (λ place. place < length writes.now) }
{
    match unshared::<D, A>(alloc, changes) {
        Ok(blocks) => shared(alloc, blocks, writes),
        Err(_) => Err(0),
    }
}

/// The same, before they are shared.
fn unshared<D: Digest, A: Allocator + Copy>(
    alloc: A,
    changes: &Collected<'_, A>,
) -> Result<Vec<Block<D, A>, A>, AllocError>
    ensures { IfOk result (λ blocks. blocks.items ≡ records_come (changes_in changes.now)) }
{
    let writes = changes.with_records(alloc)?;
    Block::<D, A>::of_writes(writes)
}

/// Blocks to share, of records of these writes. Where memory for one is refused, the place of a write of its record.
fn shared<D: Digest, A: Allocator + Copy>(
    alloc: A,
    blocks: Vec<Block<D, A>, A>,
    writes: &[Arc<Write<A>, A>],
) -> Result<Vec<Arc<Block<D, A>, A>, A>, usize>
    requires { 0 < length writes.now }
    ensures made { IfOk result (λ shared. each arc_value shared.items ≡ blocks.items) }
    ensures place { IfErr result (λ place. place < length writes.now) }
{
    let Ok(mut shared) = Vec::with_capacity(alloc, blocks.len()) else {
        return Err(0);
    };
    for block in blocks {
        match Arc::new(alloc, block) {
            Ok(one) => {
                let Ok(()) = shared.push(one) else {
                    return Err(0);
                };
            }
            Err(refused) => return Err(place_of(writes, refused.value.bytes())),
        }
    }
    Ok(shared)
}

/// The place of the last of these writes that has this record, 0 where none has.
fn place_of<A: Allocator>(writes: &[Arc<Write<A>, A>], record: &[u8]) -> usize
    requires { 0 < length writes.now }
    ensures { result < length writes.now }
{
    let mut found = 0;
    for place in 0..writes.len() {
        if is_of(&writes[place], record) {
            found = place;
        }
    }
    found
}

/// Whether a write has this record.
fn is_of<A: Allocator>(write: &Arc<Write<A>, A>, record: &[u8]) -> bool
    ensures { IsTrue result ↔ (shared_record write.now ≡ Some record.now) }
{
    match write.record() {
        Some(own) => own == record,
        None => false,
    }
}
