//! What a change leaves, or why there is no edit: a fault of the walk, and what it is to the caller.

ghost use Rattle.std.specs.Prelude.{◌≡◌};
ghost use Rattle.edit.specs.Stops.{draft_fault_of};
ghost use Rattle.edit.specs.declared.outcome.EditFault.TheVariants.{NoMemory};
ghost use Rattle.edit.specs.declared.outcome.Fault.TheVariants as walks;

use block::{Block, Collided};
use cid::{Cid, Digest};
use rows::DraftFault;
use std::alloc::{AllocError, AllocFailed, Allocator, Global};
use std::sync::Arc;
use thiserror::Error;

/// What a batch does to a tree and to the set of its blocks. The blocks before, without those of `drop` and with those of
/// `add`, are the blocks after.
#[derive(Drop)]
#[derive_where(Debug)]
pub struct BatchEdit<D: Digest, A: Allocator = Global> {
    /// The root after the batch.
    pub root: Cid,
    /// New blocks, each once, none of which was read, and each a node. A subtree's blocks come before the node that links
    /// to it, the new top last, where it is new.
    pub add: Vec<Arc<Block<D, A>, A>, A>,
    /// The CIDs of the blocks that go, each once. What is both added and dropped stands in neither.
    pub drop: Vec<Cid, A>,
    /// The value that the key of each change had before, in the order of the changes.
    pub previous: Vec<Option<Cid>, A>,
    /// The nodes of the tree before that were read, each once, in the order in which they were read, shared with the source.
    pub read: Vec<Arc<Block<D, A>, A>, A>,
}

/// What the change of one key does: a [`BatchEdit`] of one change.
#[derive(Drop)]
#[derive_where(Debug)]
pub struct Edit<D: Digest, A: Allocator = Global> {
    /// The root after the change.
    pub root: Cid,
    /// New blocks, as in a [`BatchEdit`].
    pub add: Vec<Arc<Block<D, A>, A>, A>,
    /// The CIDs of the blocks that go, as in a [`BatchEdit`].
    pub drop: Vec<Cid, A>,
    /// The value that the key had before.
    pub previous: Option<Cid>,
    /// The nodes of the tree before that were read, as in a [`BatchEdit`].
    pub read: Vec<Arc<Block<D, A>, A>, A>,
}

/// Why a tree was not changed. Nothing is left behind then.
#[derive(Drop, Error)]
#[derive_where(Debug)]
pub enum EditFault<D: Digest, A: Allocator = Global> {
    /// The source lacks the block with this CID, which is needed: the first such block that is asked for. A source that has
    /// the tree never does.
    #[error("the source lacks a block of the tree")]
    Missing(Cid),

    /// The block that the source gives for this CID is no node. A source that has the tree never does it.
    #[error("a block of the source is no node")]
    BadNode(Cid),

    /// The nodes that the source gives have a link below layer 0. A source that has the tree never does it.
    #[error("the source has a link below layer 0")]
    TooDeep,

    /// The nodes that the source gives aren't a tree's: more are read than a tree needs, or keys don't ascend in a node that
    /// would be made. A source that has the tree never does it.
    #[error("the source has no tree with this root")]
    NotTree,

    /// The tree doesn't have the key that was to be deleted. A batch and a put never answer it.
    #[error("the tree does not have the key")]
    NoSuchKey,

    /// Two blocks, each a node of the tree before or of the tree after, have one CID and different bytes.
    #[error("two different blocks have one CID")]
    Clash(Collided<D, A>),

    /// Memory was refused.
    #[error("out of memory")]
    NoMemory,
}

impl<D: Digest, A: Allocator> From<AllocError> for EditFault<D, A> {
    ghost from_gives = { λ _ fault. fault ≡ NoMemory };

    fn from(_: AllocError) -> EditFault<D, A> {
        EditFault::NoMemory
    }
}

impl<D: Digest, A: Allocator, T: Drop> From<AllocFailed<T>> for EditFault<D, A> {
    ghost from_gives = { λ _ fault. fault ≡ NoMemory };

    fn from(_: AllocFailed<T>) -> EditFault<D, A> {
        EditFault::NoMemory
    }
}

impl<D: Digest, A: Allocator> From<Fault> for EditFault<D, A> {
    ghost use Rattle.edit.specs.Batches.{of_walk};

    ghost from_gives = { λ walk fault. fault ≡ of_walk walk };

    fn from(fault: Fault) -> EditFault<D, A> {
        match fault {
            Fault::Missing(cid) => EditFault::Missing(cid),
            Fault::BadNode(cid) => EditFault::BadNode(cid),
            Fault::TooDeep => EditFault::TooDeep,
            Fault::NotTree => EditFault::NotTree,
            Fault::NoMemory => EditFault::NoMemory,
        }
    }
}

/// Why the walk stopped.
#[derive(Clone, Copy, Debug, Drop)]
pub(crate) enum Fault {
    /// The source lacks the node with this CID, which was to be read.
    Missing(Cid),

    /// What the source gives for this CID is no node.
    BadNode(Cid),

    /// A link stands below layer 0.
    TooDeep,

    /// More nodes are read than a tree needs, or keys don't ascend in a node that is made.
    NotTree,

    /// Memory was refused.
    NoMemory,
}

impl From<AllocError> for Fault {
    ghost from_gives = { λ _ fault. fault ≡ walks.NoMemory };

    fn from(_: AllocError) -> Fault {
        Fault::NoMemory
    }
}

impl<T: Drop> From<AllocFailed<T>> for Fault {
    ghost from_gives = { λ _ fault. fault ≡ walks.NoMemory };

    fn from(_: AllocFailed<T>) -> Fault {
        Fault::NoMemory
    }
}

impl From<DraftFault> for Fault {
    ghost from_gives = { λ given fault. fault ≡ draft_fault_of given };

    fn from(fault: DraftFault) -> Fault {
        match fault {
            DraftFault::NotNode => Fault::NotTree,
            DraftFault::NoMemory => Fault::NoMemory,
        }
    }
}
