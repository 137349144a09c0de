//! The same over a source of blocks that has the nodes of a tree.

ghost use Rattle.batch_laws.specs.Laws.Sources.{BatchOverSource, PreviousIsValues};

/// Over a source that has the nodes of a tree, a batch at its root gives the new root and the blocks that come and go.
pub fn batch_over_a_source()
    ensures { BatchOverSource }
{}

/// The values that the walk meets are those that the changed keys had, in the order of the changes.
pub fn previous_is_the_values()
    ensures { PreviousIsValues }
{}
