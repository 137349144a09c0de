//! What the blocks of a repository are.

ghost use Rattle.spec.specs.Laws.Blocks.{BlocksAreParts, BlocksAreTheseSets, BlockIsFound, ValueIsOfRecord, LawfulHasPairs};

/// A repository's blocks are its further ones, the nodes of its tree and its records, each as often as it is used.
pub fn blocks_are_parts()
    ensures { BlocksAreParts }
{}

/// A block is a repository's exactly where it is a further one, a node or a record.
pub fn blocks_are_these_sets()
    ensures { BlocksAreTheseSets }
{}

/// Of blocks that don't clash, the one with a CID is found by it.
pub fn block_is_found()
    ensures { BlockIsFound }
{}

/// A key's value in the pairs of a record map is the CID of its record.
pub fn value_is_of_the_record()
    ensures { ValueIsOfRecord }
{}

/// The records that lawful writes leave have the pairs of a tree.
pub fn lawful_has_pairs()
    ensures { LawfulHasPairs }
{}
