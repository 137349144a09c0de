//! What a mirror may rely on.

ghost use Rattle.difference_taking.specs.Laws.{TrueIsTaken};

/// A true difference is refused by no test: each key has what is told, and where each change has its record, and there is room
/// for the writes, the batch passes.
pub fn true_is_taken()
    ensures { TrueIsTaken }
{}
