//! The CAR file of a message.

ghost use Rattle.std.specs.Prelude.{◌≡◌, ◌≤◌, ◌∷◌, [], length, map, true, IfErr, OnOk};
ghost use Rattle.std.specs.Arc.{arc_value};
ghost use Rattle.spec.specs.Reading.{Gives};
ghost use Rattle.key_changes.specs.Keyed.{are_changes};
ghost use Rattle.change_laws.specs.Told.{undone};
ghost use Rattle.event_times.specs.Limits.{most_blocks_bytes};
ghost use Rattle.event_writing.specs.Views.{untold_fault_of};
ghost use Rattle.event_writing.specs.Steps.{left_file as file_left};
ghost use Rattle.event_writing.specs.Putting.{ArePut, IsTooLong};
ghost use Rattle.event_writing.specs.Sources.{OfRecords, record_given, records_given};

use crate::fault::UntoldFault;
use crate::left::{nodes_left, record_of};
use block::Block;
use car_writing::CarWriter;
use cid::{Cid, Digest};
use event_format::FormFault;
use event_times::limits::MOST_BLOCKS_BYTES;
use key_changes::KeyChange;
use lookups::Source;
use std::alloc::Allocator;
use std::sync::Arc;

/// Puts a block, unless the file has more bytes then than a message may have.
fn put<D: Digest, A: Allocator + Clone>(
    file: &mut CarWriter<A>,
    block: &Block<D, A>,
) -> Result<(), UntoldFault>
    ensures put { OnOk result (ArePut D.digest_of (block.now ∷ []) file.old file.new) }
    ensures short { OnOk result (length file.new.bytes ≤ most_blocks_bytes) }
    ensures fault { IfErr result (IsTooLong D.digest_of (block.now ∷ []) file.old) }
{
    file.push::<D>(&block.cid(), block.bytes())?;
    if file.len() > MOST_BLOCKS_BYTES {
        return Err(UntoldFault::Form(FormFault::BlocksSize));
    }
    Ok(())
}

/// Puts nodes.
fn put_nodes<D: Digest, A: Allocator + Clone>(
    file: &mut CarWriter<A>,
    nodes: &[Arc<Block<D, A>, A>],
) -> Result<(), UntoldFault>
    requires short { length file.old.bytes ≤ most_blocks_bytes }
    ensures put { OnOk result (ArePut D.digest_of (map arc_value nodes.now) file.old file.new) }
    ensures short { OnOk result (length file.new.bytes ≤ most_blocks_bytes) }
    ensures fault { IfErr result (IsTooLong D.digest_of (map arc_value nodes.now) file.old) }
{
    for node in nodes {
        put(file, node)?;
    }
    Ok(())
}

/// Puts the record that an operation leaves, if it leaves one.
fn put_record<'a, D: Digest + 'a, A: Allocator + Clone + 'a, S: Source<&'a Arc<Block<D, A>, A>>>(
    file: &mut CarWriter<A>,
    src: &mut S,
    op: &KeyChange<'_>,
) -> Result<(), UntoldFault>
    requires short { length file.old.bytes ≤ most_blocks_bytes }
    ensures put { OnOk result (ArePut D.digest_of (record_given (S.gives src.old) op.now.after)
        file.old file.new) }
    ensures short { OnOk result (length file.new.bytes ≤ most_blocks_bytes) }
    ensures fault { IfErr result (IsTooLong D.digest_of
        (record_given (S.gives src.old) op.now.after) file.old) }
    ensures same { S.gives src.new ≡ S.gives src.old }
{
    match record_of::<D, A, S>(src, &op.after) {
        Some(record) => put(file, record),
        None => Ok(()),
    }
}

/// Puts the records that operations leave.
fn put_records<'a, D: Digest + 'a, A: Allocator + Clone + 'a, S: Source<&'a Arc<Block<D, A>, A>>>(
    file: &mut CarWriter<A>,
    src: &mut S,
    ops: &[KeyChange<'_>],
) -> Result<(), UntoldFault>
    requires short { length file.old.bytes ≤ most_blocks_bytes }
    ensures put { OnOk result (ArePut D.digest_of (records_given (S.gives src.old) ops.now)
        file.old file.new) }
    ensures short { OnOk result (length file.new.bytes ≤ most_blocks_bytes) }
    ensures fault { IfErr result (IsTooLong D.digest_of
        (records_given (S.gives src.old) ops.now) file.old) }
    ensures same { S.gives src.new ≡ S.gives src.old }
{
    for op in ops {
        put_record::<D, A, S>(file, src, op)?;
    }
    Ok(())
}

/// The file of a message: the commit, the nodes that undoing the operations reads, and the records that they leave.
pub(crate) fn left_file<
    'a,
    D: Digest + 'a,
    const B: u8,
    A: Allocator + Copy + 'a,
    S: Source<&'a Arc<Block<D, A>, A>>,
>(
    alloc: A,
    src: &mut S,
    root: Cid,
    commit: &Block<D, A>,
    ops: &[KeyChange<'_>],
) -> Result<Vec<u8, A>, UntoldFault>
    requires least { 1 ≤ B }
    requires changes { are_changes (undone ops.now) ≡ true }
    ensures file { OfRecords D.digest_of B (S.gives src.old) root (λ m. Gives (λ file. file.items)
        untold_fault_of result (file_left D.digest_of B m commit.now ops.now)) }
    ensures same { S.gives src.new ≡ S.gives src.old }
{
    let nodes = nodes_left::<D, B, A, S>(alloc, src, root, ops)?;
    let mut file = CarWriter::new(alloc, &commit.cid())?;
    put(&mut file, commit)?;
    put_nodes(&mut file, &nodes)?;
    put_records::<D, A, S>(&mut file, src, ops)?;
    Ok(file.into_bytes())
}
