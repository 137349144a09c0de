//! The blocks of sections, whose CIDs are known.

ghost use Rattle.std.specs.Prelude.{◌≡◌, map, true, IfOk};
ghost use Rattle.std.specs.Arc.{arc_value};
ghost use Rattle.spec.specs.CarReading.{are_named, blocks_of, is_named};
ghost use Rattle.car_reader.specs.Views.{section_of, sections_of};

use block::Block;
use car_reader::Section;
use cid::Digest;
use std::alloc::{AllocError, Allocator};
use std::sync::Arc;

/// The blocks of sections that are named by them. These are copied, and not hashed again.
pub(crate) fn known_blocks<D: Digest, A: Allocator + Copy>(
    alloc: A,
    sections: &[Section<'_>],
) -> Result<Vec<Arc<Block<D, A>, A>, A>, AllocError>
    requires { are_named D.digest_of (sections_of sections.now) ≡ true }
    ensures { IfOk result (λ blocks.
        map arc_value blocks.items ≡ blocks_of (sections_of sections.now)) }
{
    let mut blocks = Vec::with_capacity(alloc, sections.len())?;
    for section in sections {
        blocks.push(Arc::new(alloc, block::<D, A>(alloc, section)?)?)?;
    }
    Ok(blocks)
}

/// The block of a section that is named by it.
fn block<D: Digest, A: Allocator>(
    alloc: A,
    section: &Section<'_>,
) -> Result<Block<D, A>, AllocError>
    requires { is_named D.digest_of (section_of section.now) ≡ true }
    ensures { IfOk result (λ block. block ≡ section.now.block.now) }
{
    let bytes = Vec::from_slice(alloc, section.block)?;
    Ok(Block::of_known(bytes, section.cid.to_cid()))
}
