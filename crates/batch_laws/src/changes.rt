//! Changes of keys, and the pairs that they leave.

ghost use Rattle.batch_laws.specs.Laws.Changes.{ChangedOneByOne, CollectedGoesOn, OneIsWrite};

/// Changes whose keys ascend do at once what they do one by one.
pub fn changed_is_one_by_one()
    ensures { ChangedOneByOne }
{}

/// Changes that are collected one after another, the last of a key in the place of those before it, do what they do one by
/// one, in the order in which they came.
pub fn collected_changes_go_on()
    ensures { CollectedGoesOn }
{}

/// A batch of one change is a put or a delete of its key.
pub fn one_change_is_a_write()
    ensures { OneIsWrite }
{}
