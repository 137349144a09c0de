//! What is told beside a state.

ghost use Rattle.spec.specs.Reading.{Gives};
ghost use Rattle.event_writing_laws.specs.Syncs.{sync_test};
ghost use Rattle.event_writing.specs.Views.{untold_fault_of};
ghost use Rattle.event_writing.specs.Syncing.{sync_told_of};

use crate::fault::UntoldFault;
use crate::told::is_seq;
use event_format::FormFault;
use event_times::is_time;

/// What a message `#sync` tells beside the state.
#[derive(Clone, Copy, Debug)]
pub struct SyncTold<'t> {
    /// The message's number in the stream, below 2^63.
    pub seq: u64,
    /// When it is sent. `event_times::is_time` is the test.
    pub time: &'t [u8],
    /// The signature of the commit. Nothing tests it.
    pub sig: &'t [u8],
}

/// Whether this can be told beside a state.
#[tactic(auto, unfolding(event_writing_laws::specs::Syncs::sync_test))]
pub(crate) fn test_sync(told: &SyncTold<'_>) -> Result<(), UntoldFault>
    ensures { Gives (λ x. x) untold_fault_of result (sync_test (sync_told_of told.now)) }
{
    if !is_seq(told.seq) {
        return Err(UntoldFault::BadSeq);
    }
    if !is_time(told.time) {
        return Err(UntoldFault::Form(FormFault::BadTime));
    }
    Ok(())
}
