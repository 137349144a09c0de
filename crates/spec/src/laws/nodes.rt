//! The bytes of nodes.

ghost use Rattle.spec.specs.Laws.Nodes.{NodeReadsBack, OnlySpellingsAreRead, NoTwoNodesAreSpelledAlike, NodeIsDagCbor, TreesHaveLawfulNodes};

/// A node of the grammar is read from its spelling.
pub fn node_reads_back()
    ensures { NodeReadsBack }
{}

/// Bytes that are read are the spelling of what was read, a node of the grammar.
pub fn only_spellings_are_read()
    ensures { OnlySpellingsAreRead }
{}

/// No two nodes of the grammar are spelled alike.
pub fn no_two_nodes_are_spelled_alike()
    ensures { NoTwoNodesAreSpelledAlike }
{}

/// A node is spelled in DAG-CBOR, as a map of its entries and its left link.
pub fn node_is_dag_cbor()
    ensures { NodeIsDagCbor }
{}

/// Each node of a tree is of the grammar, under any digest of 32 bytes.
pub fn trees_have_lawful_nodes()
    ensures { TreesHaveLawfulNodes }
{}
