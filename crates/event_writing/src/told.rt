//! What is told beside a batch.

ghost use Rattle.std.specs.Prelude.{◌≡◌, ◌^◌, nat_lt, option_map};
ghost use Rattle.spec.specs.Reading.{Gives};
ghost use Rattle.event_laws.specs.Reading.{since_test as since_tested};
ghost use Rattle.event_writing_laws.specs.Telling.{of_form, told_test};
ghost use Rattle.event_writing.specs.Views.{told_of, untold_fault_of};

use crate::fault::UntoldFault;
use event_format::{FormFault, test_since};
use event_times::is_time;

/// What a message tells beside the batch.
#[derive(Clone, Copy, Debug)]
pub struct Told<'t> {
    /// The message's number in the stream, below 2^63.
    pub seq: u64,
    /// When it is sent. `event_times::is_time` is the test.
    pub time: &'t [u8],
    /// The revision of the batch before, if there was one.
    pub since: Option<&'t [u8]>,
    /// The signature of the commit. Nothing tests it.
    pub sig: &'t [u8],
}

impl<'t> Told<'t> {
    /// When it is sent.
    pub(crate) fn time(&self) -> &[u8]
        ensures { result.now ≡ self.now.time.now }
    {
        self.time
    }

    /// The revision of the batch before, if there was one.
    pub(crate) fn since(&self) -> Option<&[u8]>
        ensures { option_map (λ s. s.now) result ≡ option_map (λ s. s.now) self.now.since }
    {
        match self.since {
            Some(since) => Some(since),
            None => None,
        }
    }
}

/// Whether this can be the number of a message: DAG-CBOR's numbers have 63 bits and a sign.
pub(crate) fn is_seq(seq: u64) -> bool
    ensures { result ≡ nat_lt seq (2 ^ 63) }
{
    seq < 0x8000_0000_0000_0000
}

/// Whether a revision is after the one before, if there was one.
fn test_order(since: Option<&[u8]>, rev: &[u8]) -> Result<(), UntoldFault>
    ensures { Gives (λ x. x) untold_fault_of result
        (of_form (since_tested (option_map (λ s. s.now) since.entry) rev.now)) }
{
    match test_since(since, rev) {
        Ok(()) => Ok(()),
        Err(fault) => Err(UntoldFault::Form(fault)),
    }
}

/// Whether this can be told beside a batch with this revision.
#[tactic(auto, unfolding(event_writing_laws::specs::Telling::told_test))]
pub(crate) fn test_told(told: &Told<'_>, rev: &[u8]) -> Result<(), UntoldFault>
    ensures { Gives (λ x. x) untold_fault_of result (told_test (told_of told.now) rev.now) }
{
    if !is_seq(told.seq) {
        return Err(UntoldFault::BadSeq);
    }
    test_order(told.since, rev)?;
    if !is_time(told.time) {
        return Err(UntoldFault::Form(FormFault::BadTime));
    }
    Ok(())
}
