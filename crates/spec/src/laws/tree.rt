//! The Merkle search tree of a list of pairs.

ghost use Rattle.spec.specs.Laws.Tree.{CutIsTheOnlyOne, PairsAreInOrder, LinksGoDownOneLayer, NoSubtreeIsEmpty, TreeIsTheOnlyOne};

/// A list is cut at a layer's keys in one way only.
pub fn cut_is_the_only_one()
    ensures { CutIsTheOnlyOne }
{}

/// A tree's pairs, from its first key to its last, are the list that it was built from.
pub fn pairs_are_in_order()
    ensures { PairsAreInOrder }
{}

/// Each key of a node has the node's layer, and each link goes down exactly one layer.
pub fn links_go_down_one_layer()
    ensures { LinksGoDownOneLayer }
{}

/// Each node below the top has a key in it or below it.
pub fn no_subtree_is_empty()
    ensures { NoSubtreeIsEmpty }
{}

/// No other tree has these pairs in order, goes down layer by layer, and has no empty subtree.
pub fn tree_is_the_only_one()
    ensures { TreeIsTheOnlyOne }
{}
