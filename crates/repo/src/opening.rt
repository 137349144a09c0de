//! The first block of a repository.

ghost use Rattle.std.specs.Prelude.{◌≡◌, None, [], IfOk};
ghost use Rattle.std.specs.Arc.{arc_value};
ghost use Rattle.spec.specs.NodeFormat.{node_spelling};

use block::Block;
use cid::Digest;
use std::alloc::{AllocError, Allocator};
use std::sync::Arc;

/// The block of a node without entries.
pub(crate) fn empty_node<D: Digest, A: Allocator + Copy>(
    alloc: A,
) -> Result<Arc<Block<D, A>, A>, AllocError>
    ensures { IfOk result (λ block. arc_value block ≡ node_spelling None []) }
{
    // a map of two fields: e, no entries, and l, null
    let bytes = Vec::from_slice(alloc, b"\xa2\x61e\x80\x61l\xf6")?;
    Ok(Arc::new(alloc, Block::of(bytes))?)
}
