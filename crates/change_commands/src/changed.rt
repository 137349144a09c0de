//! What the writes of a batch change, by key.
ghost use Rattle.std.specs.Prelude.{◌≡◌, option_map, IfOk};
ghost use Rattle.spec.specs.Cid.{cid as cid_of_bytes};
ghost use Rattle.batches.specs.Values.{writes_of};
ghost use Rattle.batch_laws.specs.Collecting.{collected, with_cids};
ghost use Rattle.repo.specs.Tested.{changes_of as records_of, lent};

use batches::Write;
use cid::{Cid, Digest};
use edit::Change;
use std::alloc::{AllocError, Global};
use std::collections::BTreeMap;

/// The keys that some writes name, in order, each with the record that the last of its writes leaves.
type Named<'w> = BTreeMap<&'w [u8], Option<&'w [u8]>>;

/// The keys that these writes name.
fn named_by<'w>(alloc: Global, writes: &'w [Write]) -> Result<Named<'w>, AllocError>
    ensures { IfOk result
        (λ named. records_of named.entries ≡ collected (writes_of writes.now)) }
{
    let mut named = BTreeMap::new(alloc);
    for write in writes {
        let key = write.key();
        let record = write.record();
        named.insert(key, record)?;
    }
    Ok(named)
}

/// The changes that these writes come to, with the CIDs of their records, in the order of the keys.
pub(crate) fn changes_of<'w, D: Digest>(
    alloc: Global,
    writes: &'w [Write],
) -> Result<Vec<Change<'w>>, AllocError>
    ensures { IfOk result (λ changes.
        changes.items ≡ with_cids D.digest_of (collected (writes_of writes.now))) }
{
    let named = named_by(alloc, writes)?;
    let mut changes = Vec::new(alloc);
    for (key, record) in &named {
        changes.push(Change {
            key: *key,
            value: cid_of::<D>(*record),
        })?;
    }
    Ok(changes)
}

/// The CID of the record with these bytes, where there is one.
fn cid_of<D: Digest>(bytes: Option<&[u8]>) -> Option<Cid>
    ensures { result ≡ option_map (cid_of_bytes D.digest_of) (lent bytes.entry) }
{
    match bytes {
        Some(bytes) => Some(Cid::of::<D>(bytes)),
        None => None,
    }
}
