//! The text of a change: both roots, the changes of the keys, and the nodes.
ghost use Rattle.std.specs.Prelude.{◌≡◌, ◌++◌, map, IfOk, OnOk};
ghost use Rattle.std.specs.Arc.{arc_value};
ghost use Rattle.std.specs.List.{flat_map};
ghost use Rattle.change_commands.specs.Texts.{change_line, text_of_parts};

use block::Block;
use change_proofs::KeyChange;
use cid::{Cid, Digest};
use console::push_value;
use repository_commands::{push_lines, push_root};
use std::alloc::{AllocError, Global};
use std::sync::Arc;

/// The text of these.
pub(crate) fn text_of<D: Digest>(
    alloc: Global,
    before: &Cid,
    after: &Cid,
    changes: &[KeyChange<'_>],
    nodes: &[Arc<Block<D>>],
) -> Result<Vec<u8>, AllocError>
    ensures { IfOk result (λ text. text.items
        ≡ text_of_parts before.now after.now changes.now (map arc_value nodes.now)) }
{
    let mut text = Vec::new(alloc);
    push_root(&mut text, before)?;
    push_root(&mut text, after)?;
    push_changes(&mut text, changes)?;
    push_lines(alloc, &mut text, nodes)?;
    Ok(text)
}

/// Puts the lines of some changes at the end.
fn push_changes(text: &mut Vec<u8>, changes: &[KeyChange<'_>]) -> Result<(), AllocError>
    ensures { OnOk result
        (text.new.items ≡ text.old.items ++ flat_map change_line changes.now) }
{
    for change in changes {
        push_change(text, change)?;
    }
    Ok(())
}

/// Puts the line of a change at the end.
fn push_change(text: &mut Vec<u8>, change: &KeyChange<'_>) -> Result<(), AllocError>
    ensures { OnOk result (text.new.items ≡ text.old.items ++ change_line change.now) }
{
    text.extend_from_slice(b"change ")?;
    text.extend_from_slice(change.key)?;
    push_value(text, &change.before)?;
    push_value(text, &change.after)?;
    text.push(b'\n')?;
    Ok(())
}
