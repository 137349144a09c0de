//! What comes, as a slice of a CAR file (CARv1).
ghost use Rattle.std.specs.Prelude.{◌≡◌, ◌++◌, true, map, option_map, IfOk, OnOk};
ghost use Rattle.std.specs.Arc.{arc_value};
ghost use Rattle.std.specs.List.{flat_map};
ghost use Rattle.spec.specs.Car.{section};
ghost use Rattle.spec.specs.NodeFormat.{is_ascending};
ghost use Rattle.difference.specs.Merged.{changes_told};
ghost use Rattle.difference_commands.specs.Slices.{coming};
ghost use Rattle.difference_commands.specs.Texts.{beginning, record_section, record_sections, slice};
ghost use Rattle.difference_commands.specs.Views.{pairs_in, records_in};

use crate::entry::Entry;
use crate::text::record_of;
use crate::trees::Compared;
use block::Block;
use car_writing::{push_header, push_section};
use cid::{Cid, Digest};
use difference::KeyDifference;
use std::alloc::{AllocError, Allocator};
use std::sync::Arc;

/// The slice: the commit, if there is one, the nodes that come, and the records that the new entries have under keys that
/// differ. A record that stands under two of them stands twice.
pub(crate) fn slice_of<D: Digest, A: Allocator + Copy>(
    alloc: A,
    commit: &Option<Vec<u8, A>>,
    compared: &Compared<D, A>,
    new: &[(Entry<'_>, Cid)],
) -> Result<Vec<u8, A>, AllocError>
    requires { is_ascending (pairs_in new.now) ≡ true }
    ensures { IfOk result (λ bytes. bytes.items ≡ slice D.digest_of
        (coming (option_map (λ bytes. bytes.items) commit.now) compared.now) (records_in new.now)
        (changes_told compared.now.found.changes.items)) }
{
    let mut out = Vec::new(alloc);
    push_beginning::<D, A>(&mut out, commit, &compared.root)?;
    push_nodes(&mut out, &compared.found.come)?;
    push_records::<D, A>(&mut out, &compared.found.changes, new)?;
    Ok(out)
}

/// Puts the header at the end, and the section of the commit, if there is one; then it is the root.
fn push_beginning<D: Digest, A: Allocator>(
    out: &mut Vec<u8, A>,
    commit: &Option<Vec<u8, A>>,
    root: &Cid,
) -> Result<(), AllocError>
    ensures { OnOk result (out.new.items ≡ out.old.items
        ++ beginning D.digest_of (option_map (λ bytes. bytes.items) commit.now) root.now) }
{
    match commit {
        Some(bytes) => {
            let cid = Cid::of::<D>(bytes);
            push_header(out, &cid)?;
            push_section(out, &cid, bytes)
        }
        None => push_header(out, root),
    }
}

/// Puts the sections of nodes at the end.
fn push_nodes<D: Digest, A: Allocator>(
    out: &mut Vec<u8, A>,
    nodes: &[Arc<Block<D, A>, A>],
) -> Result<(), AllocError>
    ensures { OnOk result (out.new.items ≡ out.old.items
        ++ flat_map (section D.digest_of) (map arc_value nodes.now)) }
{
    for node in nodes {
        push_section(out, &node.cid(), node.bytes())?;
    }
    Ok(())
}

/// Puts the sections of the records at the end that entries have under the keys of changes.
fn push_records<D: Digest, A: Allocator>(
    out: &mut Vec<u8, A>,
    changes: &[KeyDifference<A>],
    new: &[(Entry<'_>, Cid)],
) -> Result<(), AllocError>
    requires { is_ascending (pairs_in new.now) ≡ true }
    ensures { OnOk result (out.new.items ≡ out.old.items
        ++ record_sections D.digest_of (records_in new.now) (changes_told changes.now)) }
{
    for change in changes {
        push_record_section::<D, A>(out, record_of(new, &change.key))?;
    }
    Ok(())
}

/// Puts the section of a record at the end, if there is one.
fn push_record_section<D: Digest, A: Allocator>(
    out: &mut Vec<u8, A>,
    found: Option<&[u8]>,
) -> Result<(), AllocError>
    ensures { OnOk result (out.new.items ≡ out.old.items
        ++ record_section D.digest_of (option_map (λ bytes. bytes.now) found.entry)) }
{
    match found {
        Some(record) => push_section(out, &Cid::of::<D>(record), record),
        None => Ok(()),
    }
}
