//! Why blocks don't show a change.

ghost use Rattle.std.specs.Prelude.{◌≡◌};
ghost use Rattle.change_proofs.specs.declared.change_fault.ChangeFault.TheVariants.{NoMemory};

use cid::{Cid, Digest};
use edit::EditFault;
use std::alloc::{AllocError, AllocFailed, Allocator};
use thiserror::Error;

/// Why blocks don't show that a tree became another one by some changes.
///
/// Whose nodes are given is the tree *before* for [`verify_change`](crate::verify_change), which does the changes in it, and the
/// tree *after* for [`verify_inversion`](crate::verify_inversion), which undoes them.
#[derive(Clone, Copy, PartialEq, Eq, Debug, Drop, Error)]
pub enum ChangeFault {
    /// The block with this CID is needed, and not given. It is the first of these that doing or undoing the changes asks for.
    #[error("a block that is needed is not given: {0}")]
    BlockMissing(Cid),

    /// The block that is given for this CID is no node.
    #[error("a block that is needed is no node: {0}")]
    BadNode(Cid),

    /// The nodes that are given have a link below layer 0.
    #[error("a link stands below layer 0")]
    TooDeep,

    /// The nodes that are given are of no tree with the root that is asked for first: as far as the changes come, they read more
    /// nodes than such a tree has for them, or keys don't ascend in a node that they make.
    #[error("the blocks are no tree with the root that they are read from")]
    NotTree,

    /// The key of the change at this place has another value in the tree whose nodes are given.
    #[error("the key of change {0} has another value")]
    OtherValue(usize),

    /// The changes done lead to another root than the one after, or undone to another one than the one before.
    #[error("the changes lead to another root")]
    OtherRoot,

    /// Memory was refused.
    #[error("out of memory")]
    NoMemory,
}

impl From<AllocError> for ChangeFault {
    ghost from_gives = { λ _ fault. fault ≡ NoMemory };

    fn from(_: AllocError) -> ChangeFault {
        ChangeFault::NoMemory
    }
}

impl<T: Drop> From<AllocFailed<T>> for ChangeFault {
    ghost from_gives = { λ _ fault. fault ≡ NoMemory };

    fn from(_: AllocFailed<T>) -> ChangeFault {
        ChangeFault::NoMemory
    }
}

impl<D: Digest, A: Allocator> From<EditFault<D, A>> for ChangeFault {
    ghost use Rattle.change_proofs.specs.Verdicts.{of_preview};

    ghost from_gives = { λ given fault. fault ≡ of_preview given };

    fn from(fault: EditFault<D, A>) -> ChangeFault {
        match fault {
            EditFault::Missing(cid) => ChangeFault::BlockMissing(cid),
            EditFault::BadNode(cid) => ChangeFault::BadNode(cid),
            EditFault::TooDeep => ChangeFault::TooDeep,
            EditFault::NotTree | EditFault::NoSuchKey | EditFault::Clash(_) => ChangeFault::NotTree,
            EditFault::NoMemory => ChangeFault::NoMemory,
        }
    }
}
