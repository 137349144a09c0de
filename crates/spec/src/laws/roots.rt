//! Roots of trees.

ghost use Rattle.spec.specs.Laws.Roots.{RootNamesContents};

/// Two lists of pairs with one root CID are one list, where no two nodes of their trees clash.
pub fn root_names_contents()
    ensures { RootNamesContents }
{}
