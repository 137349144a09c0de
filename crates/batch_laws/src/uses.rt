//! What changes at once do to the blocks of a repository and to how often they are used.

ghost use Rattle.batch_laws.specs.Laws.Uses.{ValuesBalance, ChangesKeepUses, ValuesAreByKeys, RecordsCome};

/// The values of changed pairs, with the old ones of the changed keys, are those before, with the new ones.
pub fn values_balance()
    ensures { ValuesBalance }
{}

/// Changes at once exchange uses of nodes and of records, and a source that has what comes has all blocks after them.
pub fn changes_keep_uses()
    ensures { ChangesKeepUses }
{}

/// The values that the keys of changes had don't depend on what the changes put there.
pub fn values_are_by_keys()
    ensures { ValuesAreByKeys }
{}

/// Each record that comes is one of the records after the changes.
pub fn records_come()
    ensures { RecordsCome }
{}
