//! What a batch leaves in a repository: values, nodes and records, as a source of its blocks gives them.

ghost use Rattle.std.specs.Prelude.{◌≡◌, ◌≤◌, [], length, map, nat_le, option_map, true, IfOk};
ghost use Rattle.std.specs.List.{cons_option};
ghost use Rattle.std.specs.Arc.{arc_value};
ghost use Rattle.spec.specs.Reading.{Gives};
ghost use Rattle.spec.specs.Blocks.{pairs};
ghost use Rattle.key_changes.specs.Keyed.{are_changes};
ghost use Rattle.lookups.specs.Trees.{OfTree};
ghost use Rattle.batch_laws.specs.Previous.{values};
ghost use Rattle.change_laws.specs.Told.{undone};
ghost use Rattle.change_laws.specs.Laws.{change_path};
ghost use Rattle.change_laws.specs.Verdict.{are_told};
ghost use Rattle.event_times.specs.Limits.{most_record_bytes};
ghost use Rattle.event_writing_laws.specs.Telling.{of_values};
ghost use Rattle.event_writing_laws.specs.Messages.{left_test};
ghost use Rattle.event_writing.specs.Views.{untold_as, untold_fault_of};
ghost use Rattle.event_writing.specs.Sources.{OfRecords, given_size, record_given, sizes_given};

use crate::fault::UntoldFault;
use block::Block;
use change_proofs::{ChangeFault, prove_inversion_over};
use cid::{Cid, Digest};
use event_times::limits::MOST_RECORD_BYTES;
use key_changes::KeyChange;
use lookups::Source;
use std::alloc::Allocator;
use std::sync::Arc;

/// Nodes of a repository's tree, shared with it.
pub(crate) type Nodes<D, A> = Vec<Arc<Block<D, A>, A>, A>;

/// Why nodes aren't proved, as a fault of the message. Over all blocks of a repository the other faults don't come.
fn untold(fault: ChangeFault) -> UntoldFault
    ensures { result ≡ untold_as fault }
{
    match fault {
        ChangeFault::OtherValue(place) => UntoldFault::OtherValue(place),
        _ => UntoldFault::NoMemory,
    }
}

/// The nodes that undoing operations reads, where each key has the value that is told after its operation.
fn shown<
    'a,
    D: Digest + 'a,
    const B: u8,
    A: Allocator + Copy + 'a,
    S: Source<&'a Arc<Block<D, A>, A>>,
>(alloc: A, src: &mut S, root: Cid, ops: &[KeyChange<'_>]) -> Result<Nodes<D, A>, UntoldFault>
    requires least { 1 ≤ B }
    requires changes { are_changes (undone ops.now) ≡ true }
    ensures told { OfTree D.digest_of B (S.gives src.old) root (λ es. Gives (λ nodes. tt)
        untold_fault_of result (of_values (are_told 0 (values (undone ops.now) es) ops.now))) }
    ensures nodes { OfTree D.digest_of B (S.gives src.old) root (λ es. IfOk result (λ nodes.
        map arc_value nodes.items ≡ change_path D.digest_of B ops.now es)) }
    ensures same { S.gives src.new ≡ S.gives src.old }
{
    match prove_inversion_over::<D, B, A, S>(alloc, src, root, ops) {
        Ok(nodes) => Ok(nodes),
        Err(fault) => Err(untold(fault)),
    }
}

/// The record with this CID, if there is one.
pub(crate) fn record_of<'a, D: Digest + 'a, A: Allocator + 'a, S: Source<&'a Arc<Block<D, A>, A>>>(
    src: &mut S,
    cid: &Option<Cid>,
) -> Option<&'a Arc<Block<D, A>, A>>
    ensures found { cons_option (option_map (λ block. arc_value block.now) result) []
        ≡ record_given (S.gives src.old) cid.now }
    ensures same { S.gives src.new ≡ S.gives src.old }
{
    match cid {
        Some(cid) => src.get(cid),
        None => None,
    }
}

/// Whether a record is no longer than a message may have it.
fn is_short(record: &[u8]) -> bool
    ensures { result ≡ nat_le (length record.now) most_record_bytes }
{
    record.len() <= MOST_RECORD_BYTES
}

/// Whether the record that an operation leaves, if it leaves one, isn't too long.
fn test_size<'a, D: Digest + 'a, A: Allocator + 'a, S: Source<&'a Arc<Block<D, A>, A>>>(
    src: &mut S,
    place: usize,
    op: &KeyChange<'_>,
) -> Result<(), UntoldFault>
    ensures test { Gives (λ x. x) untold_fault_of result
        (given_size (S.gives src.old) place op.now) }
    ensures same { S.gives src.new ≡ S.gives src.old }
{
    let Some(record) = record_of::<D, A, S>(src, &op.after) else {
        return Ok(());
    };
    if is_short(record.bytes()) {
        Ok(())
    } else {
        Err(UntoldFault::RecordSize(place))
    }
}

/// Whether no operation leaves a record that is too long.
fn test_sizes<'a, D: Digest + 'a, A: Allocator + 'a, S: Source<&'a Arc<Block<D, A>, A>>>(
    src: &mut S,
    ops: &[KeyChange<'_>],
) -> Result<(), UntoldFault>
    ensures test { Gives (λ x. x) untold_fault_of result
        (sizes_given (S.gives src.old) 0 ops.now) }
    ensures same { S.gives src.new ≡ S.gives src.old }
{
    for (place, op) in ops.iter().enumerate() {
        test_size::<D, A, S>(src, place, op)?;
    }
    Ok(())
}

/// The nodes that undoing operations reads, where each key has the value that is told and no record is too long.
pub(crate) fn nodes_left<
    'a,
    D: Digest + 'a,
    const B: u8,
    A: Allocator + Copy + 'a,
    S: Source<&'a Arc<Block<D, A>, A>>,
>(alloc: A, src: &mut S, root: Cid, ops: &[KeyChange<'_>]) -> Result<Nodes<D, A>, UntoldFault>
    requires least { 1 ≤ B }
    requires changes { are_changes (undone ops.now) ≡ true }
    ensures told { OfRecords D.digest_of B (S.gives src.old) root (λ m. Gives (λ nodes. tt)
        untold_fault_of result (left_test D.digest_of m ops.now)) }
    ensures nodes { OfRecords D.digest_of B (S.gives src.old) root (λ m. IfOk result (λ nodes.
        map arc_value nodes.items ≡ change_path D.digest_of B ops.now (pairs D.digest_of m))) }
    ensures same { S.gives src.new ≡ S.gives src.old }
{
    let nodes = shown::<D, B, A, S>(alloc, src, root, ops)?;
    test_sizes::<D, A, S>(src, ops)?;
    Ok(nodes)
}
