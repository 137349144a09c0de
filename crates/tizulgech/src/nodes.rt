//! Nodes that a caller hands in.

ghost use Rattle.std.specs.Prelude.{◌≡◌, ◌++◌, map, take, option_map, IfOk, OnOk};
ghost use Rattle.std.specs.Arc.{arc_value};
ghost use Rattle.tizulgech.specs.Known.{known_of, AreKnown, AreTheirs};

use block::Block;
use buffers::pairs;
use cid::{Cid, Sha256};
use std::alloc::{AllocError, Global};
use std::sync::Arc;

/// The blocks of these bytes, which are copied, in their order. The first have the CIDs that are given, 36 bytes each, and aren't
/// hashed: whoever calls owes that these are theirs. Of the others several are hashed side by side.
///
/// `None` comes where the bytes are no CIDs, or more than the parts; `AllocError` where memory was refused.
pub(crate) fn blocks_of(
    alloc: Global,
    parts: &[&[u8]],
    cids: &[u8],
) -> Result<Option<Vec<Arc<Block<Sha256>>>>, AllocError>
    requires { AreKnown cids.now (map (λ part. part.now) parts.now) }
    ensures { IfOk result (λ blocks. option_map (λ blocks. map arc_value blocks.items) blocks
        ≡ option_map (λ known. map (λ part. part.now) parts.now)
        (known_of (map (λ part. part.now) parts.now) cids.now)) }
{
    let (known, others) = first_of(cids.len() / 36, parts);
    let Some(known) = pairs(alloc, known, cids)? else {
        return Ok(None);
    };
    Ok(Some(joined(alloc, known, others)?))
}

/// The first parts, up to so many, and the others.
#[tactic(auto, using(crate::proofs::Knowing::all_first, crate::proofs::Knowing::some_first, crate::proofs::Knowing::some_whole))]
fn first_of<'p>(most: usize, parts: &'p [&'p [u8]]) -> (&'p [&'p [u8]], &'p [&'p [u8]])
    ensures first { map (λ part. part.now) result.0.now
        ≡ take most (map (λ part. part.now) parts.now) }
    ensures whole { map (λ part. part.now) result.0.now ++ map (λ part. part.now) result.1.now
        ≡ map (λ part. part.now) parts.now }
{
    if most < parts.len() {
        parts.split_at(most)
    } else {
        parts.split_at(parts.len())
    }
}

/// The blocks of bytes with their CIDs, and then those of others.
fn joined(
    alloc: Global,
    known: Vec<(Vec<u8>, Cid)>,
    others: &[&[u8]],
) -> Result<Vec<Arc<Block<Sha256>>>, AllocError>
    requires { AreTheirs (map (λ pair. (pair.0.items, pair.1)) known.items) }
    ensures { IfOk result (λ blocks. map arc_value blocks.items
        ≡ map (λ pair. pair.0.items) known.items ++ map (λ part. part.now) others.now) }
{
    let mut blocks = Vec::new(alloc);
    push_known(alloc, &mut blocks, known)?;
    push_shared(
        alloc,
        &mut blocks,
        Block::of_each(copies_of(alloc, others)?)?,
    )?;
    Ok(blocks)
}

/// Puts the blocks of bytes with their CIDs at the end.
fn push_known(
    alloc: Global,
    blocks: &mut Vec<Arc<Block<Sha256>>>,
    known: Vec<(Vec<u8>, Cid)>,
) -> Result<(), AllocError>
    requires { AreTheirs (map (λ pair. (pair.0.items, pair.1)) known.items) }
    ensures { OnOk result (map arc_value blocks.new.items
        ≡ map arc_value blocks.old.items ++ map (λ pair. pair.0.items) known.items) }
{
    for (bytes, cid) in known {
        blocks.push(Arc::new(alloc, Block::of_known(bytes, cid))?)?;
    }
    Ok(())
}

/// Copies of these bytes.
fn copies_of(alloc: Global, parts: &[&[u8]]) -> Result<Vec<Vec<u8>>, AllocError>
    ensures { IfOk result (λ lists.
        map (λ bytes. bytes.items) lists.items ≡ map (λ part. part.now) parts.now) }
{
    let mut lists = Vec::with_capacity(alloc, parts.len())?;
    for part in parts {
        lists.push(Vec::from_slice(alloc, part)?)?;
    }
    Ok(lists)
}

/// Puts blocks at the end, to share.
fn push_shared(
    alloc: Global,
    blocks: &mut Vec<Arc<Block<Sha256>>>,
    more: Vec<Block<Sha256>>,
) -> Result<(), AllocError>
    ensures { OnOk result (map arc_value blocks.new.items
        ≡ map arc_value blocks.old.items ++ more.items) }
{
    for block in more {
        blocks.push(Arc::new(alloc, block)?)?;
    }
    Ok(())
}
