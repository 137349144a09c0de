//! What a file has under its keys, lent.
ghost use Rattle.std.specs.Prelude.{◌≡◌, [], ◌∷◌, ◌++◌, IfOk, OnOk, map};
ghost use Rattle.spec.specs.Blocks.{pairs as pairs_of};
ghost use Rattle.repository_check.specs.Views as views;
ghost use Rattle.difference_commands.specs.Files.{said_pairs, said_records, without_records};
ghost use Rattle.difference_commands.specs.Views.{keyed, pairs_in, records_in};

use crate::contents::Contents;
use crate::entry::Entry;
use cid::{Cid, Digest};
use repository_check::Record;
use std::alloc::{AllocError, Allocator};
use tree_command::ListedKey;

/// The entries of a file, each with the CID of its record.
pub(crate) type Entries<'p, A> = Vec<(Entry<'p>, Cid), A>;

/// The entries of what a file says.
pub(crate) fn entries_of<'p, D: Digest, A: Allocator + Copy>(
    alloc: A,
    contents: &'p Contents<'_, A>,
) -> Result<Entries<'p, A>, AllocError>
    ensures pairs { IfOk result
        (λ entries. pairs_in entries.items ≡ said_pairs D.digest_of contents.now) }
    ensures records { IfOk result
        (λ entries. records_in entries.items ≡ said_records contents.now) }
{
    match contents {
        Contents::Export(found) => entries_of_export(alloc, &found.records),
        Contents::Listing(pairs) => entries_of_listing(alloc, pairs),
        Contents::Records(records) => entries_of_records::<D, A>(alloc, records),
    }
}

/// The entries of the records of an export.
fn entries_of_export<'p, A: Allocator + Copy>(
    alloc: A,
    records: &'p [Record<'_, A>],
) -> Result<Entries<'p, A>, AllocError>
    ensures pairs { IfOk result
        (λ entries. pairs_in entries.items ≡ map views.pair_of records.now) }
    ensures records { IfOk result
        (λ entries. records_in entries.items ≡ map views.keyed_record records.now) }
{
    let mut entries = Vec::with_capacity(alloc, records.len())?;
    for record in records {
        push_entry(&mut entries, &record.key, record.bytes, record.cid)?;
    }
    Ok(entries)
}

/// The entries of lines `KEY CID`, without records.
fn entries_of_listing<'p, A: Allocator + Copy>(
    alloc: A,
    pairs: &'p [(ListedKey<'_>, Cid)],
) -> Result<Entries<'p, A>, AllocError>
    ensures pairs { IfOk result (λ entries. pairs_in entries.items ≡ pairs.now) }
    ensures records { IfOk result
        (λ entries. records_in entries.items ≡ without_records pairs.now) }
{
    let mut entries = Vec::with_capacity(alloc, pairs.len())?;
    for (key, cid) in pairs {
        push_entry(&mut entries, key.bytes(), &[], *cid)?;
    }
    Ok(entries)
}

/// The entries of lines `KEY HEX`. Each record is hashed.
fn entries_of_records<'p, D: Digest, A: Allocator + Copy>(
    alloc: A,
    records: &'p [(ListedKey<'_>, Vec<u8, A>)],
) -> Result<Entries<'p, A>, AllocError>
    ensures pairs { IfOk result
        (λ entries. pairs_in entries.items ≡ pairs_of D.digest_of (keyed records.now)) }
    ensures records { IfOk result (λ entries. records_in entries.items ≡ keyed records.now) }
{
    let mut entries = Vec::with_capacity(alloc, records.len())?;
    for (key, record) in records {
        push_entry(&mut entries, key.bytes(), record, Cid::of::<D>(record))?;
    }
    Ok(entries)
}

/// Adds the entry of a key.
fn push_entry<'p, A: Allocator>(
    entries: &mut Entries<'p, A>,
    key: &'p [u8],
    record: &'p [u8],
    cid: Cid,
) -> Result<(), AllocError>
    ensures pairs { OnOk result
        (pairs_in entries.new.items ≡ pairs_in entries.old.items ++ (key.now, cid) ∷ []) }
    ensures records { OnOk result (records_in entries.new.items
        ≡ records_in entries.old.items ++ (key.now, record.now) ∷ []) }
{
    entries.push((Entry::new(key, record), cid))?;
    Ok(())
}
