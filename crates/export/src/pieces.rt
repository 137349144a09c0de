//! The header and the sections of the file of a repository, each by itself.

ghost use Rattle.std.specs.Prelude.{◌≡◌, option_map, IfOk};
ghost use Rattle.spec.specs.Car.{header, section};
ghost use Rattle.spec.specs.Commits.{car_root};
ghost use Rattle.spec.specs.States.{state_commit, state_root};
ghost use Rattle.repo.specs.Readings.{state_block};

use crate::cars::root_of;
use crate::sections::{write_header, write_section};
use crate::to_memory::ToMemory;
use block::Block;
use cid::{Cid, Digest};
use repo::Core;
use std::alloc::{AllocError, Global};

/// The header of the file (CARv1) of a repository. It names the commit of the last batch, and before the first batch the root
/// of the tree.
///
/// `AllocError` comes where memory was refused.
pub fn car_head<D: Digest, const B: u8>(
    alloc: Global,
    core: &Core<D, B>,
) -> Result<Vec<u8>, AllocError>
    ensures { IfOk result (λ head. head.items ≡ header (car_root
        (state_commit D.digest_of B core.now) (state_root D.digest_of B core.now))) }
{
    let commit = core.commit();
    let root = core.root();
    header_of(alloc, &root_of(commit, root))
}

/// The section of that file for the repository's block with a CID, or `None` where it has none. Nothing is hashed.
///
/// `AllocError` comes where memory was refused.
pub fn car_section<D: Digest, const B: u8>(
    alloc: Global,
    core: &Core<D, B>,
    cid: &Cid,
) -> Result<Option<Vec<u8>>, AllocError>
    ensures { IfOk result (λ found. option_map (λ bytes. bytes.items) found
        ≡ option_map (section D.digest_of) (state_block D.digest_of B core.now cid.now)) }
{
    match core.block(cid) {
        Some(block) => Ok(Some(section_of(alloc, block)?)),
        None => Ok(None),
    }
}

/// The header that names this root.
fn header_of(alloc: Global, root: &Cid) -> Result<Vec<u8>, AllocError>
    ensures { IfOk result (λ head. head.items ≡ header root.now) }
{
    let mut out = ToMemory::new(alloc);
    match write_header(&mut out, root) {
        Ok(_) => Ok(out.into_bytes()),
        Err(_) => Err(AllocError),
    }
}

/// The section of a block.
fn section_of<D: Digest>(alloc: Global, block: &Block<D>) -> Result<Vec<u8>, AllocError>
    ensures { IfOk result (λ bytes. bytes.items ≡ section D.digest_of block.now) }
{
    let mut out = ToMemory::new(alloc);
    match write_section(&mut out, block) {
        Ok(_) => Ok(out.into_bytes()),
        Err(_) => Err(AllocError),
    }
}
