//! Given blocks.

ghost use Rattle.std.specs.Prelude.{◌≡◌, map, IfOk};
ghost use Rattle.std.specs.Arc.{arc_value};

use block::Block;
use cid::Digest;
use std::alloc::{AllocError, Allocator};
use std::clone::Clone;
use std::convert::AsSlice;
use std::sync::Arc;

/// The blocks of these bytes, which are copied, in their order. They are hashed several side by side where the digest can do
/// that.
pub(crate) fn blocks_of<D: Digest, A: Allocator + Clone, K: AsSlice<u8>>(
    alloc: A,
    given: &[K],
) -> Result<Vec<Arc<Block<D, A>, A>, A>, AllocError>
    ensures { IfOk result (λ blocks. map arc_value blocks.items ≡ map K.items given.now) }
{
    let lists = copies(alloc.clone()?, given)?;
    let mut blocks = Vec::with_capacity(alloc.clone()?, given.len())?;
    for block in Block::<D, A>::of_each(lists)? {
        blocks.push(Arc::new(alloc.clone()?, block)?)?;
    }
    Ok(blocks)
}

/// Copies of these bytes, in their order.
fn copies<A: Allocator + Clone, K: AsSlice<u8>>(
    alloc: A,
    given: &[K],
) -> Result<Vec<Vec<u8, A>, A>, AllocError>
    ensures { IfOk result (λ lists. map (λ bytes. bytes.items) lists.items
        ≡ map K.items given.now) }
{
    let mut lists = Vec::with_capacity(alloc.clone()?, given.len())?;
    for bytes in given {
        lists.push(copy_of(alloc.clone()?, bytes.as_slice())?)?;
    }
    Ok(lists)
}

/// A copy of these bytes.
fn copy_of<A: Allocator>(alloc: A, bytes: &[u8]) -> Result<Vec<u8, A>, AllocError>
    ensures { IfOk result (λ own. own.items ≡ bytes.now) }
{
    let mut own = Vec::with_capacity(alloc, bytes.len())?;
    own.extend_from_slice(bytes)?;
    Ok(own)
}
