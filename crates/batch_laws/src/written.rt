//! What is written is of the node grammar.

ghost use Rattle.batch_laws.specs.Laws.Written.{BatchHasKeys, BatchIsLawful, BatchGoesOn};

/// Keys of 1 to 1,024 bytes ascend in each node that a batch makes.
pub fn made_nodes_have_keys()
    ensures { BatchHasKeys }
{}

/// Each node that a batch makes of lawful pairs and lawful changes is of the node grammar.
pub fn made_nodes_are_lawful()
    ensures { BatchIsLawful }
{}

/// What a test says of each node that is made in the end it says on the way, of what is made and of what is begun: so no
/// writer refuses a row.
pub fn steps_go_on()
    ensures { BatchGoesOn }
{}
