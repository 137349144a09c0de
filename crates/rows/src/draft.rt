//! Nodes that were written, their blocks, and why one was not written.

ghost use Rattle.std.specs.Prelude.{◌≡◌, ◌∷◌, [], true, IfOk, OnOk};
ghost use Rattle.std.specs.Arc.{arc_value};
ghost use Rattle.spec.specs.NodeFormat.{shape_cid};
ghost use Rattle.edit_laws.specs.Lawful.{Lawful};
ghost use Rattle.edit_laws.specs.ShapeEdit.{close_link, close_shapes};
ghost use Rattle.block.specs.Nodes.{reads_as_node};
ghost use Rattle.rows.specs.Drafts.{Adds};
ghost use Rattle.rows.specs.declared.draft.DraftFault.TheVariants.{NoMemory};

use crate::made::Made;
use block::Block;
use cid::{Cid, Digest};
use std::alloc::{AllocError, AllocFailed, Allocator};
use std::marker::Model;
use std::sync::Arc;

/// The bytes of a node that was written, not yet a block: nothing has hashed them.
///
/// A contract sees it as the node's links and pairs in turn.
#[derive(Drop)]
pub struct Draft<A: Allocator> {
    pub(crate) bytes: Vec<u8, A>,
    pub(crate) is_empty: bool,
}

impl<A: Allocator> Model for Draft<A> {
    ghost use Rattle.spec.specs.NodeFormat.{Shape};
    ghost use Rattle.rows.specs.Drafts.{IsDraft, shape_in};
    ghost use Rattle.rows.specs.Codes.{shape_code};

    ghost Value = { Shape };

    ghost coded = { shape_code };

    ghost view = { λ d. shape_in d.bytes.items };

    ghost invariant = { λ d. IsDraft d.bytes.items d.is_empty };
}

impl<A: Allocator + Clone> Draft<A> {
    /// Makes the block of the node as the last of `made`, and answers its CID. Nothing is hashed where the node is the block
    /// `like`, whatever that is. `AllocError` comes where memory was refused; nothing is promised of `made` then.
    pub fn push<D: Digest>(
        self,
        like: Option<&Arc<Block<D, A>, A>>,
        made: &mut Made<D, A>,
    ) -> Result<Cid, AllocError>
        ensures cid { IfOk result (λ cid. cid ≡ shape_cid D.digest_of self) }
        ensures made { OnOk result (Adds made.old made.new (self ∷ [])) }
        ensures lawful { Lawful self }
    {
        let alloc = made.alloc()?;
        let block = block_of(alloc, self.bytes, like)?;
        let cid = block.cid();
        made.push(block)?;
        Ok(cid)
    }

    /// Makes the block of the node as the last of `made`, and answers its link. An empty node, one without pairs and without
    /// a link, makes no block and has no link. Nothing is hashed where the node is the block `like`, whatever that is.
    /// `AllocError` comes where memory was refused; nothing is promised of `made` then.
    pub fn close<D: Digest>(
        self,
        like: Option<&Arc<Block<D, A>, A>>,
        made: &mut Made<D, A>,
    ) -> Result<Option<Cid>, AllocError>
        ensures link { IfOk result (λ link. link ≡ close_link D.digest_of self) }
        ensures made { OnOk result (Adds made.old made.new (close_shapes self)) }
        ensures lawful { Lawful self }
    {
        if self.is_empty {
            return Ok(None);
        }
        Ok(Some(self.push(like, made)?))
    }
}

/// The block of these bytes, which are a node's. It is the block `like` where that has the very bytes: equal bytes have one
/// CID, so they are compared, their lengths first, and not hashed.
fn block_of<D: Digest, A: Allocator>(
    alloc: A,
    bytes: Vec<u8, A>,
    like: Option<&Arc<Block<D, A>, A>>,
) -> Result<Arc<Block<D, A>, A>, AllocError>
    requires { reads_as_node bytes.items ≡ true }
    ensures { IfOk result (λ block. arc_value block ≡ bytes.items) }
{
    if let Some(block) = like {
        if block.bytes() == bytes.as_slice() {
            return Arc::try_clone(block);
        }
    }
    Ok(Arc::new(alloc, Block::of_node(bytes))?)
}

/// Why a node was not written.
#[derive(Clone, Copy, Debug, Drop)]
pub enum DraftFault {
    /// What was to be written is no node: keys that don't ascend, or one of no bytes or of more than 1,024.
    NotNode,
    /// Memory was refused.
    NoMemory,
}

impl From<AllocError> for DraftFault {
    ghost from_gives = { λ _ fault. fault ≡ NoMemory };

    fn from(_: AllocError) -> DraftFault {
        DraftFault::NoMemory
    }
}

impl<T: Drop> From<AllocFailed<T>> for DraftFault {
    ghost from_gives = { λ _ fault. fault ≡ NoMemory };

    fn from(_: AllocFailed<T>) -> DraftFault {
        DraftFault::NoMemory
    }
}
