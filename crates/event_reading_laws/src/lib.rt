//! A law of messages that needs the laws of signed commits, as a DID and a revision are texts of DAG-CBOR by these.
#![tactic(auto)]

ghost use Rattle.event_reading_laws.specs.Laws.{WrittenIsRead};

/// What is written of a message is read as that message.
pub fn written_is_read()
    ensures { WrittenIsRead }
{}
