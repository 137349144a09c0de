//! Blocks with one CID and different bytes.

ghost use Rattle.spec.specs.Laws.Clashes.{TestTellsClashFree, TestTellsClash, TogetherClashFree};

/// The test passes exactly where no two blocks clash.
pub fn test_tells_clash_free()
    ensures { TestTellsClashFree }
{}

/// The test fails exactly where two of the blocks clash.
pub fn test_tells_clash()
    ensures { TestTellsClash }
{}

/// Two lists together are clash-free exactly where each is by itself and neither clashes with the other.
pub fn together_clash_free()
    ensures { TogetherClashFree }
{}
