//! The laws of walks.

ghost use Rattle.edit_laws.specs.Laws.Walks.{WalkIsListed, WalkReadsRange, RangesAreNodes, RangesHoldKeys, PathIsRange, WalkBound, WalkOverSource};

/// A walk gives the first pairs from a key on, in order.
pub fn walk_is_the_list()
    ensures { WalkIsListed }
{}

/// A walk reads exactly the nodes whose open range of keys meets the range of what it gives, each once.
pub fn walk_reads_its_range()
    ensures { WalkReadsRange }
{}

/// Each node of a tree has one open range of keys.
pub fn ranges_are_of_the_nodes()
    ensures { RangesAreNodes }
{}

/// The range holds the keys of the node and of all nodes below it.
pub fn ranges_hold_the_keys()
    ensures { RangesHoldKeys }
{}

/// The path of a key is the nodes whose range holds the key.
pub fn path_is_the_range_of_a_key()
    ensures { PathIsRange }
{}

/// A walk reads no more nodes for each pair than its bound, whatever the source shows.
pub fn walk_is_bounded()
    ensures { WalkBound }
{}

/// Over a source that has the nodes of a tree, a walk from its root gives its pairs and reads their nodes.
pub fn walk_over_a_source()
    ensures { WalkOverSource }
{}
