//! What comes to the node in the making of one layer, and its end.

ghost use Rattle.std.specs.Prelude.{◌≡◌, ◌∷◌, ◌++◌, [], true, List, IfOk, IfErr, IfSome, IfNone, OnOk};
ghost use Rattle.spec.specs.NodeFormat.{Shape, LastLink, shape_cid};
ghost use Rattle.edit_laws.specs.ShapeEdit.{last_link};
ghost use Rattle.rows.specs.Drafts.{IsFaultOf, IsFaultOfAll};
ghost use Rattle.rows.specs.Entries.{shape_at, key_behind};
ghost use Rattle.batch_laws.specs.Links.{onto_links, complete, rows_in_shape};
ghost use Rattle.edit.specs.Passing.{IsTaken, IsUntaken, IsNextTouched, IsNextUntouched};
ghost use Rattle.key_changes.specs.Keyed.{are_ascending};
ghost use Rattle.edit.specs.States.{shapes_in};

use crate::hashed::HashedChange;
use crate::passing::{Ahead, is_untouched};
use block::Block;
use cid::{Cid, Digest};
use rows::{DraftFault, KeyedEntries, Made, Writer, to_cid};
use std::alloc::Allocator;
use std::clone::Clone;
use std::sync::Arc;

/// A node in the making is complete: its link, and none where it has neither pairs nor a link. Where it is the block `like`,
/// it isn't hashed.
pub(crate) fn close<D: Digest, A: Allocator + Clone>(
    level: Writer<'_, A>,
    below: Option<Cid>,
    like: Option<&Arc<Block<D, A>, A>>,
    made: &mut Made<D, A>,
) -> Result<Option<Cid>, DraftFault>
    ensures closed { IfOk result (λ link. (read : List Shape) → complete D.digest_of level.entry
        (below, record { read = read; made = shapes_in made.old.items })
        ≡ (link, record { read = read; made = shapes_in made.new.items })) }
    ensures fault { IfErr result (IsFaultOf (onto_links level.entry (LastLink below))) }
{
    Ok(level.finish(below)?.close(like, made)?)
}

/// A node in the making is complete, and the top of its tree: its CID. Where it is the block `like`, it isn't hashed.
pub(crate) fn close_top<D: Digest, A: Allocator + Clone>(
    level: Writer<'_, A>,
    below: Option<Cid>,
    like: Option<&Arc<Block<D, A>, A>>,
    made: &mut Made<D, A>,
) -> Result<Cid, DraftFault>
    ensures root { IfOk result
        (λ root. root ≡ shape_cid D.digest_of (onto_links level.entry (LastLink below))) }
    ensures made { IfOk result (λ root. shapes_in made.new.items
        ≡ shapes_in made.old.items ++ onto_links level.entry (LastLink below) ∷ []) }
    ensures fault { IfErr result (IsFaultOf (onto_links level.entry (LastLink below))) }
{
    Ok(level.finish(below)?.push(like, made)?)
}

/// The pairs of a node that are left come to a node in the making, each with the link before it: the last link.
pub(crate) fn copy_rows<'a, A: Allocator + Clone>(
    written: &mut Writer<'a, A>,
    rows: &mut KeyedEntries<'a, A>,
) -> Result<Option<Cid>, DraftFault>
    ensures rows { OnOk result (written.new ≡ written.old ++ rows_in_shape rows.old.rest) }
    ensures last { IfOk result (λ last. last ≡ last_link rows.old.rest) }
    ensures fault { IfErr result (IsFaultOfAll (written.old ++ rows_in_shape rows.old.rest)) }
{
    if written.follows(rows) {
        return run_rows(written, rows);
    }
    let link = to_cid(rows.link());
    let Some(value) = rows.next() else {
        return Ok(link);
    };
    written.pair(link, rows.key(), value)?;
    run_rows(written, rows)
}

/// The same where they can come as a run.
fn run_rows<'a, A: Allocator + Clone>(
    written: &mut Writer<'a, A>,
    rows: &mut KeyedEntries<'a, A>,
) -> Result<Option<Cid>, DraftFault>
    requires follows { key_behind [] written.old ≡ rows.old.before }
    ensures rows { OnOk result (written.new ≡ written.old ++ rows_in_shape rows.old.rest) }
    ensures last { IfOk result (λ last. last ≡ last_link rows.old.rest) }
    ensures fault { IfErr result (IsFaultOfAll (written.old ++ rows_in_shape rows.old.rest)) }
{
    rows.start_here();
    loop {
        let last = rows.link();
        if rows.next().is_none() {
            let to = rows.passed();
            written.run(rows, to)?;
            return Ok(to_cid(last));
        }
    }
}

/// The next pairs of a node that no change touches come to a node in the making, each with the link before it: what comes
/// after them.
pub(crate) fn copy_untouched<'a, D: Digest, A: Allocator + Clone>(
    written: &mut Writer<'a, A>,
    layer: u16,
    rows: &mut KeyedEntries<'a, A>,
    changes: &[HashedChange<'_, D>],
) -> Result<Ahead, DraftFault>
    requires ascending { are_ascending changes.now ≡ true }
    ensures taken { IfOk result (λ ahead. IsTaken layer changes.now written.old
        rows.old.rest written.new (shape_at ahead.0 ahead.1 rows.new)) }
    ensures fault { IfErr result (IsUntaken layer changes.now written.old rows.old.rest) }
{
    if written.follows(rows) {
        return run_untouched(written, layer, rows, changes);
    }
    let next = copy_next(written, layer, rows, changes)?;
    let Some(ahead) = next else {
        return run_untouched(written, layer, rows, changes);
    };
    Ok(ahead)
}

/// The same where they can come as a run.
fn run_untouched<'a, D: Digest, A: Allocator + Clone>(
    written: &mut Writer<'a, A>,
    layer: u16,
    rows: &mut KeyedEntries<'a, A>,
    changes: &[HashedChange<'_, D>],
) -> Result<Ahead, DraftFault>
    requires ascending { are_ascending changes.now ≡ true }
    requires follows { key_behind [] written.old ≡ rows.old.before }
    ensures taken { IfOk result (λ ahead. IsTaken layer changes.now written.old
        rows.old.rest written.new (shape_at ahead.0 ahead.1 rows.new)) }
    ensures fault { IfErr result (IsUntaken layer changes.now written.old rows.old.rest) }
{
    rows.start_here();
    loop {
        let to = rows.passed();
        let after = rows.link();
        if let Some(value) = touched(layer, rows, changes) {
            written.run(rows, to)?;
            return Ok((to_cid(after), value));
        }
    }
}

/// Reads the next pair of a node. Its value, where a change touches it, and no value where no pair is left; `None` where no
/// change touches it.
fn touched<D: Digest, A: Allocator>(
    layer: u16,
    rows: &mut KeyedEntries<'_, A>,
    changes: &[HashedChange<'_, D>],
) -> Option<Option<Cid>>
    requires { are_ascending changes.now ≡ true }
    ensures untouched { IfNone result (IsNextUntouched layer changes.now rows.old rows.new) }
    ensures touched { IfSome result (λ value. IsNextTouched value rows.old rows.new) }
{
    let has_link = rows.link().is_some();
    let Some(value) = rows.next() else {
        return Some(None);
    };
    if is_untouched(layer, has_link, rows.key(), changes) {
        return None;
    }
    Some(Some(value.to_cid()))
}

/// The next pair of a node comes to a node in the making, where no change touches it; else what comes next.
fn copy_next<'a, D: Digest, A: Allocator + Clone>(
    written: &mut Writer<'a, A>,
    layer: u16,
    rows: &mut KeyedEntries<'a, A>,
    changes: &[HashedChange<'_, D>],
) -> Result<Option<Ahead>, DraftFault>
    requires ascending { are_ascending changes.now ≡ true }
    ensures came { IfOk result (λ next. IfNone next (IsTaken layer changes.now written.old
        rows.old.rest written.new rows.new.rest)) }
    ensures follows { IfOk result
        (λ next. IfNone next (key_behind [] written.new ≡ rows.new.before)) }
    ensures ahead { IfOk result (λ next. IfSome next
        (λ ahead. rows.old.rest ≡ shape_at ahead.0 ahead.1 rows.new)) }
    ensures same { IfOk result (λ next. IfSome next (λ ahead. written.new ≡ written.old)) }
    ensures fault { IfErr result (IsUntaken layer changes.now written.old rows.old.rest) }
{
    let link = to_cid(rows.link());
    let Some(value) = rows.next() else {
        return Ok(Some((link, None)));
    };
    if !is_untouched(layer, link.is_some(), rows.key(), changes) {
        return Ok(Some((link, Some(value.to_cid()))));
    }
    written.pair(link, rows.key(), value)?;
    Ok(None)
}
