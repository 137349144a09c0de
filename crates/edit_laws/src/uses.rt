//! What an edit and a commit do to the blocks of a repository and to how often they are used.

ghost use Rattle.edit_laws.specs.Laws.Uses.{EditKeepsUses, CommitKeepsUses, ClashIsNew};

/// An edit exchanges uses of nodes, CID by CID.
pub fn edit_keeps_uses()
    ensures { EditKeepsUses }
{}

/// A commit takes the place of the one before.
pub fn commit_keeps_uses()
    ensures { CommitKeepsUses }
{}

/// Of two nodes that clash, of the tree before or after, one is of the tree after.
pub fn clash_is_new()
    ensures { ClashIsNew }
{}
