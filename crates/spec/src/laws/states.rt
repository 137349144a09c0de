//! Repositories by their accepted writes and the stamps of their batches.

ghost use Rattle.spec.specs.Laws.States.{FreshHasEmptyNode, EqualRecords, StampsAscend, StampThenWrites, BatchKeepsState};

/// Before its first batch a repository has the node without entries alone, and no commit.
pub fn fresh_has_the_empty_node()
    ensures { FreshHasEmptyNode }
{}

/// Equal records give equal roots and equal blocks of the tree; with equal last stamps, all blocks, the commit and the
/// export are equal too.
pub fn equal_records()
    ensures { EqualRecords }
{}

/// A list of stamps is a repository's exactly where each passes its own test, and revisions and lengths ascend.
pub fn stamps_ascend()
    ensures { StampsAscend }
{}

/// A batch with a write, under a stamp that passes, is tested by its writes.
pub fn stamp_then_writes()
    ensures { StampThenWrites }
{}

/// A batch that passes keeps a repository lawful.
pub fn batch_keeps_state()
    ensures { BatchKeepsState }
{}
