//! The example of the root of `lookups`: a source of one's own.

ghost use Rattle.std.specs.Prelude.{◌∷◌, []};
ghost use Rattle.lookups.specs.Maps.{first_of};

use crate::fixtures::{node, value};
use block::Block;
use cid::{Cid, Digest, Sha256};
use counts::Count;
use lookups::{Source, get};
use std::alloc::{AllocError, Global};
use std::sync::Arc;

/// A source of one block.
#[derive(Drop)]
struct OneBlock<'a, D: Digest> {
    block: &'a Arc<Block<D>>,
    asked: Count,
}

impl<'a, D: Digest> Source<&'a Arc<Block<D>>> for OneBlock<'a, D> {
    ghost gives = { λ one. first_of D.digest_of (one.block.now ∷ []) };

    ghost reads = { λ one. one.asked.times };

    fn get(&mut self, cid: &Cid) -> Option<&'a Arc<Block<D>>> {
        self.asked = self.asked.once_more();
        if self.block.cid() == *cid {
            Some(self.block)
        } else {
            None
        }
    }
}

/// What a look-up finds in a tree of one node.
fn found(alloc: Global, key: &[u8]) -> Result<Option<Cid>, AllocError> {
    let bytes = node(alloc, None, b"k", None)?;
    let block: Arc<Block<Sha256>> = Arc::new(alloc, Block::of(bytes))?;
    let root = block.cid();
    let mut one = OneBlock {
        block: &block,
        asked: Count::never(),
    };
    Ok(get::<Sha256, 2, _, _>(&mut one, root, key))
}

#[test]
fn a_source_of_ones_own(rt: HostRuntime) {
    assert!(rt; found(rt.alloc(), b"k").expect(&rt, "memory") == Some(value()));
    assert!(rt; found(rt.alloc(), b"j").expect(&rt, "memory").is_none());
}
