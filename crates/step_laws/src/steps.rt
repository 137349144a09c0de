//! What the verdict of a step means.

ghost use Rattle.spec.specs.TestDigests.{by_last_digit};
ghost use Rattle.step_laws.specs.StepLaws.{StepIsTrue, StepIsComplete, StepFaultsAreSo, StepOnlyMissing, StepMissingIsMissing};
ghost use Rattle.step_laws.specs.StepRows.{AreStepRows};

/// Where the root before is that of some pairs, a step that is shown leads to the root of these pairs with the changes done,
/// and each key had the value that is told before.
pub fn step_is_true()
    ensures { StepIsTrue }
{}

/// A true step is shown where the nodes are given that doing its changes reads.
pub fn step_is_complete()
    ensures { StepIsComplete }
{}

/// What is said of values and of the root is so of the pairs before.
pub fn step_faults_are_so()
    ensures { StepFaultsAreSo }
{}

/// Over some blocks of the tree before nothing is said against a block, but that a node of that tree is missing.
pub fn tree_before_is_not_called_bad()
    ensures { StepOnlyMissing }
{}

/// What is called missing isn't given.
pub fn missing_in_a_step_is_not_given()
    ensures { StepMissingIsMissing }
{}

/// The rows worked by hand come out as they should.
pub fn step_rows_come_out()
    ensures { AreStepRows by_last_digit }
{}
