//! A batch that is accepted signed, with its message `#commit`.

ghost use Rattle.std.specs.Prelude.{◌≡◌, ◌≤◌, ◌<◌, None, false, is_some, length, nat_eq, IfSome};
ghost use Rattle.std.specs.Str.{bytes_eq};
ghost use Rattle.spec.specs.States.{state_root};
ghost use Rattle.sha2.specs.Sha256.{sha256};
ghost use Rattle.batches.specs.Values.{stamp_of};
ghost use Rattle.event_writing_laws.specs.Signed.{signed_message};
ghost use Rattle.event_writing.specs.Views.{told_of, untold_fault_of};
ghost use Rattle.buffers.specs.Answers.{IsHanded, IsKept};
ghost use Rattle.buffers.specs.Framing.{cid_at};
ghost use Rattle.owned_repo.specs.Owning.{applied};
ghost use Rattle.tizulgech.specs.Causes.{HasCause};
ghost use Rattle.tizulgech.specs.Numbers.{is_other, last_rev};
ghost use Rattle.tizulgech.specs.Messages.{told_or_want};
ghost use Rattle.tizulgech.specs.SignedBatches.{of_message, signing, signing_code, untold_told as untold_told_of, IsNoLimit, IsSigned, IsSignedOver};

use crate::codes::{BAD, CLOSED, NO_MEMORY, code_of_fault};
use crate::message_faults::form_told;
use crate::stamps::{some_rev, stamp_of_bytes};
use crate::told_changes::OTHER_VALUE;
use batches::Stamp;
use buffers::{cid_in, hand};
use cid::{Cid, Sha256};
use event_writing::{SigningFault, Told, UntoldFault, prepared_event};
use owned_repo::{OwnedRepo, Repository};
use repo::PreparedBatch;
use std::alloc::Global;

/// Another batch came since the one that was signed.
const ROOT_MOVED: u8 = 130;

/// Accepts the writes that wait as one batch whose commit was signed over the root `previous`, and answers the message `#commit`
/// that tells of it: 0 and its bytes, and none waits afterwards. On any other number all stays as it is, and they still wait:
/// 130 where the repository has another root; the number of the first fault of the batch, with the place of its write; that of
/// why no message tells of it, with the place of an operation; 250; 251; 252 for a root that is no CID; 253; 254; 255.
///
/// `since` is the revision of the batch before, and no bytes say that there was none. Nothing tests the signature.
#[unsafe(no_mangle)]
pub extern "C" fn tizulgech_apply_signed(
    alloc: Global,
    repository: &mut Repository,
    previous: &[u8],
    did: &[u8],
    rev: &[u8],
    sig: &[u8],
    seq: u64,
    time: &[u8],
    since: &[u8],
    place: &mut usize,
    out: &mut [u8],
    size: &mut usize,
) -> u8
    ensures answer { IfSome repository.old.handle.repo (λ o. IsSignedOver result place.new o
        (cid_at previous.now) (record { did = did.now; rev = rev.now })
        (record { seq = seq; time = time.now; since = last_rev since.now; sig = sig.now })
        out.old out.new size.new) }
    ensures accepted { IfSome repository.old.handle.repo (λ o. IfSome repository.new.handle.repo
        (λ n. result ≡ 0 → n ≡ applied o (record { did = did.now; rev = rev.now }))) }
    ensures unchanged { ¬ (result ≡ 0) → repository.new.handle.repo ≡ repository.old.handle.repo }
    ensures same_open { is_some repository.new.handle.repo ≡ is_some repository.old.handle.repo }
    ensures closed { repository.old.handle.repo ≡ None → result ≡ 250 }
    ensures place { repository.old.handle.repo ≡ None → place.new ≡ place.old }
    ensures kept { IsKept result out.old out.new size.old size.new }
    ensures cause { HasCause result }
{
    let Some(mut repo) = repository.taken(alloc) else {
        return CLOSED;
    };
    let told = Told {
        seq,
        time,
        since: some_rev(since),
        sig,
    };
    let code = signed_over(
        alloc, &mut repo, previous, did, rev, &told, place, out, size,
    );
    *repository = Repository::opened(repo);
    code
}

/// The same of a repository.
fn signed_over(
    alloc: Global,
    repo: &mut OwnedRepo,
    previous: &[u8],
    did: &[u8],
    rev: &[u8],
    told: &Told<'_>,
    place: &mut usize,
    out: &mut [u8],
    size: &mut usize,
) -> u8
    ensures answer { IsSignedOver result place.new repo.old (cid_at previous.now)
        (record { did = did.now; rev = rev.now }) (told_of told.now) out.old out.new size.new }
    ensures accepted { result ≡ 0
        → repo.new ≡ applied repo.old (record { did = did.now; rev = rev.now }) }
    ensures unchanged { ¬ (result ≡ 0) → repo.new ≡ repo.old }
    ensures kept { IsKept result out.old out.new size.old size.new }
    ensures cause { HasCause result }
{
    *place = 0;
    let Some(previous) = cid_in(previous) else {
        return BAD;
    };
    let Ok(stamp) = stamp_of_bytes(alloc, did, rev) else {
        return NO_MEMORY;
    };
    signed_stamped(alloc, repo, previous, &stamp, told, place, out, size)
}

/// The same of a root, under a stamp.
#[tactic(auto, using(crate::proofs::SignedBatches::root_moved, crate::proofs::SignedBatches::batch_refused, crate::proofs::SignedBatches::batch_signed, crate::proofs::Tested::never_done))]
fn signed_stamped(
    alloc: Global,
    repo: &mut OwnedRepo,
    previous: Cid,
    stamp: &Stamp,
    told: &Told<'_>,
    place: &mut usize,
    out: &mut [u8],
    size: &mut usize,
) -> u8
    ensures answer { IsSigned result place.new
        (signing repo.old previous (stamp_of stamp.now) (told_of told.now))
        out.old out.new size.new }
    ensures accepted { result ≡ 0 → repo.new ≡ applied repo.old (stamp_of stamp.now) }
    ensures unchanged { ¬ (result ≡ 0) → repo.new ≡ repo.old }
    ensures kept { IsKept result out.old out.new size.old size.new }
    ensures cause { HasCause result }
{
    *place = 0;
    if !has_root(repo, &previous) {
        return ROOT_MOVED;
    }
    match repo.prepare(alloc, stamp) {
        Ok(prepared) => signed_prepared(alloc, repo, prepared, told, place, out, size),
        Err((at, fault)) => {
            *place = at;
            code_of_fault(&fault)
        }
    }
}

/// Whether a repository's tree has this root.
fn has_root(repo: &OwnedRepo, root: &Cid) -> bool
    ensures { result ≡ bytes_eq (state_root sha256 2 repo.now.state) root.now }
{
    repo.core().root() == *root
}

/// The same of a batch that was prepared on the repository as it is.
#[tactic(auto, using(crate::proofs::SignedBatches::message_signed))]
fn signed_prepared(
    alloc: Global,
    repo: &mut OwnedRepo,
    prepared: PreparedBatch<Sha256, 2>,
    told: &Told<'_>,
    place: &mut usize,
    out: &mut [u8],
    size: &mut usize,
) -> u8
    requires same { prepared.before ≡ repo.old.state }
    requires waiting { prepared.writes ≡ repo.old.pending }
    ensures answer { IsSigned result place.new (of_message (signed_message sha256 2
        prepared.before prepared.stamp prepared.writes (told_of told.now)))
        out.old out.new size.new }
    ensures accepted { result ≡ 0 → repo.new ≡ applied repo.old prepared.stamp }
    ensures unchanged { ¬ (result ≡ 0) → repo.new ≡ repo.old }
    ensures kept { IsKept result out.old out.new size.old size.new }
    ensures cause { HasCause result }
{
    match prepared_event(alloc, repo.core(), &prepared, told) {
        Ok(message) => accept_handed(alloc, repo, prepared, &message, out, size),
        Err(fault) => tell_signing(&fault, place),
    }
}

/// Accepts a batch where its message has room, and hands that out.
#[tactic(auto, using(crate::proofs::SignedBatches::store_other, crate::proofs::SignedBatches::store_cause, crate::proofs::Tested::never_done))]
fn accept_handed(
    alloc: Global,
    repo: &mut OwnedRepo,
    prepared: PreparedBatch<Sha256, 2>,
    message: &[u8],
    out: &mut [u8],
    size: &mut usize,
) -> u8
    requires same { prepared.before ≡ repo.old.state }
    requires waiting { prepared.writes ≡ repo.old.pending }
    ensures handed { is_other result ≡ false
        → IsHanded result message.now out.old out.new size.new }
    ensures accepted { result ≡ 0 → repo.new ≡ applied repo.old prepared.stamp }
    ensures unchanged { ¬ (result ≡ 0) → repo.new ≡ repo.old }
    ensures kept { IsKept result out.old out.new size.old size.new }
    ensures cause { HasCause result }
{
    if message.len() > out.len() {
        return hand_nothing(message, out, size);
    }
    match repo.accept(alloc, prepared) {
        Ok(_) => hand_whole(message, out, size),
        Err((_, fault)) => code_of_fault(&fault),
    }
}

/// Tells the size of bytes that have no room.
#[tactic(auto, using(crate::proofs::SignedBatches::handed_small))]
fn hand_nothing(bytes: &[u8], room: &mut [u8], size: &mut usize) -> u8
    requires { length room.old < length bytes.now }
    ensures handed { IsHanded result bytes.now room.old room.new size.new }
    ensures small { result ≡ 251 }
    ensures kept { IsKept result room.old room.new size.old size.new }
{
    hand(bytes, room, size)
}

/// Hands out bytes that have room.
#[tactic(auto, using(crate::proofs::SignedBatches::handed_whole))]
fn hand_whole(bytes: &[u8], room: &mut [u8], size: &mut usize) -> u8
    requires { length bytes.now ≤ length room.old }
    ensures handed { IsHanded result bytes.now room.old room.new size.new }
    ensures done { result ≡ 0 }
    ensures kept { IsKept result room.old room.new size.old size.new }
{
    hand(bytes, room, size)
}

/// Why a batch that was prepared isn't accepted: the number, and the place.
#[tactic(auto, using(crate::proofs::Tested::never_done))]
fn tell_signing(fault: &SigningFault<Sha256>, place: &mut usize) -> u8
    ensures told { (result, place.new) ≡ signing_code fault.now }
    ensures plain { IsNoLimit fault.now result }
    ensures refused { ¬ (result ≡ 0) }
{
    match fault {
        SigningFault::RootMoved => {
            *place = 0;
            ROOT_MOVED
        }
        SigningFault::Refused(at, fault) => {
            *place = *at;
            code_of_fault(fault)
        }
        SigningFault::Untold(fault) => {
            let (number, at) = untold_told(fault);
            *place = at;
            number
        }
        SigningFault::NoMemory => {
            *place = 0;
            NO_MEMORY
        }
    }
}

/// Why a batch can't be told.
#[tactic(auto, using(crate::proofs::SignedBatches::form_in_untold))]
fn untold_told(fault: &UntoldFault) -> (u8, usize)
    ensures told { result ≡ told_or_want untold_told_of (untold_fault_of fault.now) }
    ensures no_clash { nat_eq result.0 253 ≡ false }
    ensures not_full { nat_eq result.0 254 ≡ false }
    ensures refused { nat_eq result.0 0 ≡ false }
{
    match fault {
        UntoldFault::NoBatch => (132, 0),
        UntoldFault::BadSeq => (131, 0),
        UntoldFault::Form(fault) => form_told(*fault),
        UntoldFault::OtherValue(place) => (OTHER_VALUE, *place),
        UntoldFault::RecordSize(place) => (128, *place),
        UntoldFault::NoMemory => (NO_MEMORY, 0),
    }
}
