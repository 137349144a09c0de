//! A tree that is changed by a batch is the tree of the changed pairs.

ghost use Rattle.batch_laws.specs.Laws.Trees.{BatchIsTop, TopIsGreatest, BatchBalances, BatchChangesBlocks};

/// The tree that grows from a batch is the tree of the changed pairs from scratch.
pub fn batch_is_the_tree_from_scratch()
    ensures { BatchIsTop }
{}

/// The layer of the top's first key is the greatest layer of a key.
pub fn top_has_the_greatest_layer()
    ensures { TopIsGreatest }
{}

/// What a batch reads is of the old tree, each node once; and with what it makes and what goes, old becomes new.
pub fn batch_balances()
    ensures { BatchBalances }
{}

/// The blocks that a batch adds and drops make those of the new tree of those of the old one.
pub fn batch_changes_blocks()
    ensures { BatchChangesBlocks }
{}
