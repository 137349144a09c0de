//! The records that writes leave, and the batches of writes that are taken.

ghost use Rattle.spec.specs.Laws.Writes.{LastWriteDecides, KeysAscend, OrderIsNoMatter, LawfulIsEachOnThoseBefore, BatchPasses, BatchFails, BatchKeepsLawful, LeavesGoOn, TestIsByValue, BatchGoesOn, BatchEnds};

/// A key has the record of the last write that names it, and none where that is a delete or there is no such write.
pub fn last_write_decides()
    ensures { LastWriteDecides }
{}

/// The keys of the records that writes leave ascend.
pub fn keys_ascend()
    ensures { KeysAscend }
{}

/// Writes that leave the same records have the same root and the same blocks.
pub fn order_is_no_matter()
    ensures { OrderIsNoMatter }
{}

/// A list of writes is lawful exactly where each write passes on the records that those before it leave.
pub fn lawful_is_each_on_those_before()
    ensures { LawfulIsEachOnThoseBefore }
{}

/// A batch passes exactly where each of its writes does, on the records that the writes before it leave.
pub fn batch_passes()
    ensures { BatchPasses }
{}

/// A batch is refused with a write's number and fault exactly where that write is the first that fails, with that fault.
pub fn batch_fails()
    ensures { BatchFails }
{}

/// A lawful list and a batch that passes on it are lawful together.
pub fn batch_keeps_lawful()
    ensures { BatchKeepsLawful }
{}

/// One more write changes the records that those before it leave.
pub fn leaves_go_on()
    ensures { LeavesGoOn }
{}

/// A write is tested by whether its key has a value in the pairs of the tree.
pub fn test_is_by_value()
    ensures { TestIsByValue }
{}

/// A batch that passes still passes with one more write that passes after it.
pub fn batch_goes_on()
    ensures { BatchGoesOn }
{}

/// After writes that pass, a batch is refused at the first that doesn't.
pub fn batch_ends()
    ensures { BatchEnds }
{}
