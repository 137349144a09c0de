//! The batch that makes the records of a file.

ghost use Rattle.std.specs.Prelude.{◌≡◌, map, IfOk};
ghost use Rattle.batches.specs.Values.{stamp_of, write_of, writes_of};
ghost use Rattle.signed_commits.specs.Views.{commit_of};
ghost use Rattle.repository_check.specs.Views.{keyed_record};
ghost use Rattle.checked_opening.specs.Opening.{create_in, creates, stamp_in};

use batches::{Stamp, Write};
use repository_check::Record;
use signed_commits::SignedCommit;
use std::alloc::{AllocError, Allocator};

/// A write that creates each record.
pub(crate) fn creates_of<A: Allocator + Copy>(
    alloc: A,
    records: &[Record<'_, A>],
) -> Result<Vec<Write<A>, A>, AllocError>
    ensures { IfOk result (λ writes.
        writes_of writes.items ≡ creates (map keyed_record records.now)) }
{
    let mut writes = Vec::with_capacity(alloc, records.len())?;
    for record in records {
        let write = create_of(alloc, record)?;
        writes.push(write)?;
    }
    Ok(writes)
}

/// The write that creates this record.
fn create_of<A: Allocator + Copy>(alloc: A, record: &Record<'_, A>) -> Result<Write<A>, AllocError>
    ensures { IfOk result (λ write. write_of write ≡ create_in (keyed_record record.now)) }
{
    let key = Vec::from_slice(alloc, &record.key)?;
    let bytes = Vec::from_slice(alloc, record.bytes)?;
    Ok(Write::Create(key, bytes))
}

/// The stamp of this commit.
pub(crate) fn stamp_for<A: Allocator + Copy>(
    alloc: A,
    commit: &SignedCommit<'_>,
) -> Result<Stamp<A>, AllocError>
    ensures { IfOk result (λ stamp. stamp_of stamp ≡ stamp_in (commit_of commit.now)) }
{
    Ok(Stamp {
        did: Vec::from_slice(alloc, commit.did)?,
        rev: Vec::from_slice(alloc, commit.rev)?,
    })
}
