//! What the message `#commit` of a batch is, and the message `#sync` of a state (AT Protocol, event streams, sync 1.1), and
//! laws of them.
//!
//! The definitions stand in `specs/`, to be read in this order: `Telling` says what a host tells beside a batch, and why it can't
//! tell it; `Messages` what the message of a repository's last batch says, and its bytes; `Laws` what a reader makes of it;
//! `Signed` the message of a batch that isn't accepted yet; `Syncs` the message `#sync` of a state, and `SyncLaws` what it says.
//! The functions here are laws of them, and do nothing when they are called.
#![tactic(auto)]

ghost use Rattle.event_writing_laws.specs.Laws.{WrittenIsTaken};
ghost use Rattle.event_writing_laws.specs.SyncLaws.{SyncSaysState};

/// What a host writes of a batch is taken by whoever knows the root before.
pub fn written_is_taken()
    ensures { WrittenIsTaken }
{}

/// What a host writes of a state says which it is, and holds its signed commit.
pub fn sync_says_state()
    ensures { SyncSaysState }
{}
