//! The lines that a tree is listed by.
ghost use Rattle.std.specs.Prelude.{◌∷◌, [], ◌++◌, map};
ghost use Rattle.std.specs.Arc.{arc_value};
ghost use Rattle.std.specs.List.{flat_map};
ghost use Rattle.spec.specs.Cid.{text};
ghost use Rattle.tree_command.specs.TreeText.{block_line, text_of_tree};
ghost use Rattle.tree_command.specs.Outcomes.{seen};
ghost use Rattle.console.specs.Faults.{IsWritten};
ghost use Rattle.console.specs.Written.{Writes};

use crate::fault::TreeFault;
use block::Block;
use cid::{Cid, Digest};
use console::{CommandFault, WriteFault, write_hex, write_whole};
use scratch::Built;
use std::alloc::Allocator;
use std::io::Write;
use std::sync::Arc;

/// Writes the listing of a tree that was made, if one was.
pub(crate) fn write_listed<D: Digest, A: Allocator, W: Write>(
    made: Result<Built<D, A>, TreeFault>,
    out: &mut W,
) -> Result<(), CommandFault<TreeFault>>
    ensures { IsWritten (λ built. text_of_tree D.digest_of (seen built)) made
        (W.contents out.old) (W.contents out.new) result }
{
    match made {
        Ok(built) => Ok(write_tree(out, built.root, &built.blocks)?),
        Err(fault) => Err(CommandFault::NoText(fault)),
    }
}

/// Writes the text of the root's CID, and then a line for each block.
fn write_tree<D: Digest, A: Allocator, W: Write>(
    out: &mut W,
    root: Cid,
    blocks: &[Arc<Block<D, A>, A>],
) -> Result<(), WriteFault>
    ensures { Writes (W.contents out.old) (W.contents out.new) result
        (text root ++ (10 ∷ []) ++ flat_map (block_line D.digest_of) (map arc_value blocks.now)) }
{
    write_whole(out, &root.text())?;
    write_whole(out, b"\n")?;
    write_blocks(out, blocks)
}

/// Writes a line for each block.
fn write_blocks<D: Digest, A: Allocator, W: Write>(
    out: &mut W,
    blocks: &[Arc<Block<D, A>, A>],
) -> Result<(), WriteFault>
    ensures { Writes (W.contents out.old) (W.contents out.new) result
        (flat_map (block_line D.digest_of) (map arc_value blocks.now)) }
{
    for block in blocks {
        write_block(out, block)?;
    }
    Ok(())
}

/// Writes the line of a block: the text of its CID, a space, its bytes in hexadecimal, and a line end.
fn write_block<D: Digest, A: Allocator, W: Write>(
    out: &mut W,
    block: &Block<D, A>,
) -> Result<(), WriteFault>
    ensures { Writes (W.contents out.old) (W.contents out.new) result
        (block_line D.digest_of block.now) }
{
    write_whole(out, &block.cid().text())?;
    write_whole(out, b" ")?;
    write_hex(out, block.bytes())?;
    write_whole(out, b"\n")
}
