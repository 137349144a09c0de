//! Sources that have the blocks of a repository.

ghost use Rattle.edit_laws.specs.Laws.Sources.{SourceIsClashFree, BlocksAreSource, SourceHasNodes, SourceGivesBlock};

/// Blocks that one source has don't clash.
pub fn source_is_clash_free()
    ensures { SourceIsClashFree }
{}

/// Blocks that don't clash are a source of themselves.
pub fn blocks_are_a_source()
    ensures { BlocksAreSource }
{}

/// A source of a repository's blocks has the nodes of its tree.
pub fn source_has_nodes()
    ensures { SourceHasNodes }
{}

/// The block with a CID is what a source gives where the CID is used, and else there is none.
pub fn source_gives_the_block()
    ensures { SourceGivesBlock }
{}
