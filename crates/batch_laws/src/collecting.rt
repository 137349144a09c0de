//! The writes of a batch, collected as changes of records.

ghost use Rattle.batch_laws.specs.Laws.Collecting.{WritesAreCollected, PairsAreChanged, KeyIsKnown, TestIsByChanges, ValueIsChanged, OneMoreCollected, ChangesAreEntries, CollectedAreKeyed, OneMoreKeyed, PassedHaveKeys};

/// What writes leave one after another their collected changes leave at once.
pub fn writes_are_collected()
    ensures { WritesAreCollected }
{}

/// Changes of records are the same changes of the pairs of their tree.
pub fn pairs_are_changed()
    ensures { PairsAreChanged }
{}

/// What stands under a key after some writes is what their changes say of it, or else what stood there before.
pub fn key_is_known()
    ensures { KeyIsKnown }
{}

/// So a write is tested by the changes so far and one look-up in the tree before the batch.
pub fn test_is_by_changes()
    ensures { TestIsByChanges }
{}

/// The value of a key after changes at once.
pub fn value_is_changed()
    ensures { ValueIsChanged }
{}

/// With one more write its change is collected too.
pub fn one_more_is_collected()
    ensures { OneMoreCollected }
{}

/// Changes are the entries of a map by key.
pub fn changes_are_entries()
    ensures { ChangesAreEntries }
{}

/// The changes of writes that name keys are such as an edit takes.
pub fn collected_are_keyed()
    ensures { CollectedAreKeyed }
{}

/// With one more change of a key they still are.
pub fn one_more_is_keyed()
    ensures { OneMoreKeyed }
{}

/// Each write of a batch that passes names a key.
pub fn passed_have_keys()
    ensures { PassedHaveKeys }
{}
