//! Whether a message `#commit` is true of a repository whose root is known.

ghost use Rattle.std.specs.Prelude.{◌≡◌, length};
ghost use Rattle.sha2.specs.Sha256.{sha256};
ghost use Rattle.event_laws.specs.Verdict.{commit_verdict};
ghost use Rattle.commit_events.specs.Views.{checked_of};
ghost use Rattle.buffers.specs.Answers.{IsKept};
ghost use Rattle.buffers.specs.Framing.{cid_at};
ghost use Rattle.tizulgech.specs.Numbers.{IsHandedOr255};
ghost use Rattle.tizulgech.specs.Messages.{checked_spelt, IsChecked, IsCheckedFrom};

use crate::codes::{BAD, NO_MEMORY};
use crate::message_faults::tell_event;
use crate::messages::spell_checked;
use buffers::{cid_in, hand};
use cid::{Cid, Sha256};
use commit_events::{CheckedCommit, check_commit};
use std::alloc::Global;

/// What a message says, where it is true of the repository whose tree had the root `previous`: 0 and its commit, its number, the
/// operations and the blocks; or the number of its first fault, with the place of an operation, of a field, or the number of a
/// fault of DAG-CBOR in `place`, and the CID of a node in `missing`; 251; 252 for a root that is no CID; 255.
///
/// What is taken is true of whatever pairs have the root that the commit names, unless a node of their tree has the CID of a
/// given block with other bytes (`commit_events::check_commit`). Nothing tests the signature.
#[unsafe(no_mangle)]
pub extern "C" fn tizulgech_check_commit(
    alloc: Global,
    previous: &[u8],
    message: &[u8],
    place: &mut usize,
    missing: &mut [u8],
    out: &mut [u8],
    size: &mut usize,
) -> u8
    requires { length missing.old ≡ 36 }
    ensures answer { IsCheckedFrom result place.new missing.old missing.new
        out.old out.new size.new message.now (cid_at previous.now) }
    ensures missing { ¬ (result ≡ 129) → ¬ (result ≡ 30) → missing.new ≡ missing.old }
    ensures kept { IsKept result out.old out.new size.old size.new }
{
    let Some(previous) = cid_in(previous) else {
        return BAD;
    };
    checked(alloc, previous, message, place, missing, out, size)
}

/// The same of a root.
#[tactic(auto, using(crate::proofs::EventNumbers::fault_checked, crate::proofs::EventNumbers::true_checked))]
fn checked(
    alloc: Global,
    previous: Cid,
    message: &[u8],
    place: &mut usize,
    missing: &mut [u8],
    out: &mut [u8],
    size: &mut usize,
) -> u8
    requires { length missing.old ≡ 36 }
    ensures answer { IsChecked result place.new missing.old missing.new
        out.old out.new size.new (commit_verdict sha256 2 previous message.now) }
    ensures missing { ¬ (result ≡ 129) → ¬ (result ≡ 30) → missing.new ≡ missing.old }
    ensures kept { IsKept result out.old out.new size.old size.new }
{
    match check_commit::<Sha256, 2, Global>(alloc, previous, message) {
        Ok(checked) => checked_handed(alloc, &checked, out, size),
        Err(fault) => tell_event(&fault, place, missing),
    }
}

/// What was checked, handed out.
fn checked_handed(
    alloc: Global,
    checked: &CheckedCommit<'_, Global>,
    out: &mut [u8],
    size: &mut usize,
) -> u8
    ensures handed { IsHandedOr255 result (checked_spelt (checked_of checked.now))
        out.old out.new size.new }
    ensures kept { IsKept result out.old out.new size.old size.new }
{
    match spell_checked(alloc, checked) {
        Ok(bytes) => hand(&bytes, out, size),
        Err(_) => NO_MEMORY,
    }
}
