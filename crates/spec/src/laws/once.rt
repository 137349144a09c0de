//! How often a block stands among those of a tree.

ghost use Rattle.spec.specs.Laws.Once.{NodesStandOnce};

/// No node stands twice among the blocks of a tree of which no two nodes clash.
pub fn nodes_stand_once()
    ensures { NodesStandOnce }
{}
