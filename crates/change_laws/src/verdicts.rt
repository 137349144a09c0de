//! What a verdict means.

ghost use Rattle.change_laws.specs.Laws.{VerdictIsSound, OldIsUndone, VerdictIsComplete, FaultsAreSo, NothingGiven, TreeOnlyLacks, NotShownIsTrue, MissingIsMissing, NotTreeIsBeyond, TreeOnlyMissing};
ghost use Rattle.change_laws.specs.Rows.{AreRows};
ghost use Rattle.spec.specs.TestDigests.{by_last_digit};

/// Changes that are shown are true of the pairs after them, whatever pairs these are: each key has the value that is told, and
/// the pairs with each change undone are those that the root before names.
pub fn verdict_is_sound()
    ensures { VerdictIsSound }
{}

/// And where no two nodes clash, the pairs before are just these.
pub fn old_pairs_are_the_undone()
    ensures { OldIsUndone }
{}

/// Changes that are true are shown where the nodes are given that undoing reads.
pub fn verdict_is_complete()
    ensures { VerdictIsComplete }
{}

/// What is said of values and of the root is so of the pairs after.
pub fn faults_are_so()
    ensures { FaultsAreSo }
{}

/// Where some blocks of a tree are given, a batch stops only as one isn't, and by then nothing else is wrong.
pub fn tree_only_lacks()
    ensures { TreeOnlyLacks }
{}

/// So nothing is called bad there, and the blocks not no tree: the verdict is that a node of the tree is missing, or one on
/// values and roots.
pub fn tree_is_not_called_bad()
    ensures { TreeOnlyMissing }
{}

/// Where nothing is given, the root after is what is missing first.
pub fn nothing_shows_nothing()
    ensures { NothingGiven }
{}

/// What a batch finds not shown isn't shown.
pub fn not_shown_is_true()
    ensures { NotShownIsTrue }
{}

/// What is called missing isn't given.
pub fn missing_is_not_given()
    ensures { MissingIsMissing }
{}

/// Blocks are called no tree just where the batch, as far as it comes, reads more nodes than a tree has for it, or makes a
/// node whose keys don't ascend.
pub fn no_tree_is_no_tree()
    ensures { NotTreeIsBeyond }
{}

/// The rows worked by hand come out as they should.
pub fn rows_come_out()
    ensures { AreRows by_last_digit }
{}
