//! Files as servers export them.

ghost use Rattle.std.specs.Prelude.{◌≡◌, false, nat_eq, if◌then◌else◌, IfOk};
ghost use Rattle.signed_commits.specs.Views.{commit_of};
ghost use Rattle.buffers.specs.Answers.{IsKept};
ghost use Rattle.tizulgech.specs.Checked.{car_code, check_code, commit_code, export_bytes as export_bytes_of, place_after, record_fault_code, tells_record, IsChecked};
ghost use Rattle.tizulgech.specs.Numbers.{IsHandedOr255};

use crate::codes::{NO_MEMORY, fault_of_record};
use buffers::{hand, push_number, push_part};
use car_reader::CarFault;
use cid::{Cid, Sha256};
use repository_check::{CheckFault, RecordFault, check};
use signed_commits::{CommitFault, SignedCommit};
use std::alloc::{AllocError, Global};

/// Whether a CAR file (CARv1), as `com.atproto.sync.getRepo` serves it, is the export of a repository, and of which. Nothing of
/// it is trusted: each block is hashed, and the tree is built anew of the records. No signature is tested.
///
/// 0, and `out` has the CID of the signed commit, the root of the tree, the number of records in eight bytes, the lowest first,
/// and the DID and the revision, each with its length in eight bytes in front. Else the first fault: of the file 103 for its
/// header, 104 for the length of a section, 105 where it ends within one, 106 for its CID, 123 where a CID isn't that of its
/// block; of its commit 124 where there is none, 100 where it is none, 101 for its DID, 102 for its revision; 70 where the file
/// hasn't the whole tree that the commit names; of the first record that isn't taken 20 for its key, 127 where it isn't there,
/// 22, 1 to 13 and 21 for its bytes, and then `place` is its place among the records, from 0 on. 251; 255.
#[unsafe(no_mangle)]
pub extern "C" fn tizulgech_check_car(
    alloc: Global,
    file: &[u8],
    place: &mut usize,
    out: &mut [u8],
    size: &mut usize,
) -> u8
    ensures checked { nat_eq result 255 ≡ false
        → IsChecked result place.new out.old out.new size.new file.now }
    ensures place { tells_record result ≡ false → place.new ≡ place.old }
    ensures kept { IsKept result out.old out.new size.old size.new }
{
    match check::<Sha256, 2, Global>(alloc, file) {
        Ok(found) => export_told(alloc, &found.commit, found.records.len(), out, size),
        Err(fault) => tell_check(fault, place),
    }
}

/// What is told of the export of a commit and so many records.
fn export_told(
    alloc: Global,
    commit: &SignedCommit<'_>,
    count: usize,
    out: &mut [u8],
    size: &mut usize,
) -> u8
    ensures told { IsHandedOr255 result (export_bytes_of (commit_of commit.now) count)
        out.old out.new size.new }
    ensures number { tells_record result ≡ false }
    ensures kept { IsKept result out.old out.new size.old size.new }
{
    match export_bytes(alloc, commit, count) {
        Ok(bytes) => hand(&bytes, out, size),
        Err(_) => NO_MEMORY,
    }
}

/// The same, spelt.
fn export_bytes(
    alloc: Global,
    commit: &SignedCommit<'_>,
    count: usize,
) -> Result<Vec<u8>, AllocError>
    ensures { IfOk result (λ bytes. bytes.items ≡ export_bytes_of (commit_of commit.now) count) }
{
    let signed = commit.signed_bytes(alloc)?;
    let mut bytes = Vec::from_slice(alloc, Cid::of::<Sha256>(&signed).as_bytes())?;
    bytes.extend_from_slice(commit.root.as_bytes())?;
    push_number(&mut bytes, count as u64)?;
    push_part(&mut bytes, commit.did)?;
    push_part(&mut bytes, commit.rev)?;
    Ok(bytes)
}

/// The number of a fault of a file, with the place of a record.
pub(crate) fn tell_check(fault: CheckFault, place: &mut usize) -> u8
    ensures number { result ≡ check_code fault }
    ensures place { place.new ≡ place_after fault place.old }
{
    match fault {
        CheckFault::Car(fault) => code_of_car(fault),
        CheckFault::Misnamed => 123,
        CheckFault::NoCommit => 124,
        CheckFault::Commit(fault) => code_of_commit(fault),
        CheckFault::NotTheTree => 70,
        CheckFault::Record(at, fault) => tell_record(at as usize, fault, place),
        CheckFault::NoMemory => NO_MEMORY,
    }
}

/// The number of a fault of the record at a place.
fn tell_record(at: usize, fault: RecordFault, place: &mut usize) -> u8
    ensures number { result ≡ record_fault_code fault }
    ensures place { place.new
        ≡ (if nat_eq (record_fault_code fault) 255 then place.old else at) }
{
    let number = code_of_checked(fault);
    if number == NO_MEMORY {
        return NO_MEMORY;
    }
    *place = at;
    number
}

/// The number of a fault of a file's form.
fn code_of_car(fault: CarFault) -> u8
    ensures { result ≡ car_code fault }
{
    match fault {
        CarFault::BadHeader => 103,
        CarFault::BadLength => 104,
        CarFault::Truncated => 105,
        CarFault::BadCid => 106,
        CarFault::NoMemory => NO_MEMORY,
    }
}

/// The number of a fault of a commit.
fn code_of_commit(fault: CommitFault) -> u8
    ensures { result ≡ commit_code fault }
{
    match fault {
        CommitFault::NotACommit => 100,
        CommitFault::BadDid => 101,
        CommitFault::BadRev => 102,
    }
}

/// The number of a fault of a record.
fn code_of_checked(fault: RecordFault) -> u8
    ensures { result ≡ record_fault_code fault }
{
    match fault {
        RecordFault::BadKey => 20,
        RecordFault::NoRecord => 127,
        RecordFault::RecordSize => 22,
        RecordFault::BadRecord(fault) => fault_of_record(fault),
        RecordFault::NotAMap => 21,
    }
}
