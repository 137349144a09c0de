//! The laws of look-ups.

ghost use Rattle.edit_laws.specs.Laws.Lookups.{FindIsValue, FindReads, TopHasLayer, KeyHasLayer, PathIsRead, StepIsPlace, PathBound, ShapeReadsBack, OnlyShapesAreRead, LookupOverSource};

/// A look-up in the tree of ascending pairs finds the key's value.
pub fn find_is_the_value()
    ensures { FindIsValue }
{}

/// A look-up reads at most one node for each layer of the tree.
pub fn find_reads_one_node_a_layer()
    ensures { FindReads }
{}

/// No layer is above 256 divided by the bits of a layer.
pub fn top_has_a_layer_of_the_digest()
    ensures { TopHasLayer }
{}

/// Nor is the layer of a key.
pub fn key_has_a_layer_of_the_digest()
    ensures { KeyHasLayer }
{}

/// The nodes of a key's path, which a proof of the key shows, are those that a look-up reads.
pub fn path_is_what_find_reads()
    ensures { PathIsRead }
{}

/// One step of a look-up goes on where the key belongs among a node's entries.
pub fn step_is_the_place()
    ensures { StepIsPlace }
{}

/// A look-up ends within its bound, whatever the source shows.
pub fn path_is_bounded()
    ensures { PathBound }
{}

/// A shape of the node grammar is read from its bytes.
pub fn shape_reads_back()
    ensures { ShapeReadsBack }
{}

/// Bytes that read as a shape are the bytes of that shape, which is of the node grammar.
pub fn only_shapes_are_read()
    ensures { OnlyShapesAreRead }
{}

/// Over a source that has the nodes of a tree, a look-up from its root finds the key's value and reads the key's path.
pub fn lookup_over_a_source()
    ensures { LookupOverSource }
{}
