//! Which writes are taken.

ghost use Rattle.std.specs.Prelude.{◌≡◌, ◌≢◌, Ok, OnOk, Err, IfErr};
ghost use Rattle.spec.specs.Writes.{record_test, test_when};
ghost use Rattle.batches.specs.Values.{write_of};
ghost use Rattle.batches.specs.Tests.{write_fault, IsTestFault};
ghost use Rattle.batches.specs.declared.fault.RepoFault.TheVariants as faults;

use crate::fault::RepoFault;
use block::Write;
use cid::Digest;
use record_rules::{is_repository_key, test_record};
use std::alloc::Allocator;

/// Tests a write, where it is known whether its key is there: its key (`RepoFault::BadKey`), its record
/// (`RepoFault::RecordSize`, `RepoFault::BadRecord`, `RepoFault::NotAMap`), and then the key's presence
/// (`RepoFault::KeyExists` for a create, `RepoFault::NoSuchKey` for an update or a delete). Takes no memory.
pub fn test_write<D: Digest, A: Allocator>(
    there: bool,
    write: &Write<A>,
) -> Result<(), RepoFault<D, A>>
    ensures passed { OnOk result (test_when there (write_of write.now) ≡ Ok tt) }
    ensures fault { IfErr result (IsTestFault write_fault (test_when there (write_of write.now))) }
    ensures takes_no_memory { result ≢ Err faults.NoMemory }
{
    if !is_repository_key(write.key()) {
        return Err(RepoFault::BadKey);
    }
    if let Some(record) = write.record() {
        record_tested(record)?;
    }
    match write {
        Write::Create(_, _) if there => Err(RepoFault::KeyExists),
        Write::Update(_, _) | Write::Delete(_) if !there => Err(RepoFault::NoSuchKey),
        _ => Ok(()),
    }
}

/// Tests a record, with its fault as that of a batch.
fn record_tested<D: Digest, A: Allocator>(bytes: &[u8]) -> Result<(), RepoFault<D, A>>
    ensures passed { OnOk result (record_test bytes.now ≡ Ok tt) }
    ensures fault { IfErr result (IsTestFault write_fault (record_test bytes.now)) }
    ensures takes_no_memory { result ≢ Err faults.NoMemory }
{
    match test_record(bytes) {
        Ok(()) => Ok(()),
        Err(fault) => Err(RepoFault::from(fault)),
    }
}
