//! What the fields of a message say, and whether that is in bounds.

ghost use Rattle.std.specs.Prelude.{◌≡◌, option_map, nat_le, length};
ghost use Rattle.spec.specs.Reading.{Gives};
ghost use Rattle.spec.specs.DagCbor.{count_values};
ghost use Rattle.dagcbor.specs.View.{view_fields, view_items};
ghost use Rattle.event_times.specs.Limits.{most_blocks_bytes, most_ops};
ghost use Rattle.event_laws.specs.Reading.{said_of as said_in, said_test, since_test};
ghost use Rattle.event_format.specs.Views.{form_fault_of, said_of};

use crate::fault::{Field, FormFault};
use crate::fields::{bytes, count, flag, items, link, text, text_or_null};
use crate::kinds::are_links;
use cid::CidRef;
use dagcbor::Value;
use event_times::is_time;
use event_times::limits::{MOST_BLOCKS_BYTES, MOST_OPS};
use record_rules::{is_did, is_tid};
use std::alloc::Allocator;

/// What the fields of a message say, before it is looked at.
#[derive(Drop)]
pub(crate) struct Said<'v, 'a, A: Allocator> {
    pub(crate) items: &'v Vec<Value<'a, A>, A>,
    pub(crate) rev: &'a [u8],
    pub(crate) seq: u64,
    pub(crate) did: &'a [u8],
    pub(crate) time: &'a [u8],
    pub(crate) since: Option<&'a [u8]>,
    pub(crate) blocks: &'a [u8],
    pub(crate) commit: CidRef<'a>,
    pub(crate) is_rebase: bool,
    pub(crate) is_too_big: bool,
    pub(crate) before: CidRef<'a>,
}

/// The fields of a message, or the first that isn't there or is of another kind.
#[tactic(auto, unfolding(event_laws::specs::Reading::said_of))]
pub(crate) fn fields_said<'v, 'a, A: Allocator>(
    pairs: &'v Vec<(&'a str, Value<'a, A>), A>,
) -> Result<Said<'v, 'a, A>, FormFault>
    ensures { Gives said_of form_fault_of result (said_in (view_fields pairs.now.items)) }
{
    let ops = items(pairs, Field::Ops)?;
    let rev = text(pairs, Field::Rev)?;
    let seq = count(pairs, Field::Seq)?;
    let did = text(pairs, Field::Repo)?;
    let time = text(pairs, Field::Time)?;
    let blobs = items(pairs, Field::Blobs)?;
    if !are_links(blobs) {
        return Err(FormFault::BadField(Field::Blobs));
    }
    let since = text_or_null(pairs, Field::Since)?;
    let blocks = bytes(pairs, Field::Blocks)?;
    let commit = link(pairs, Field::Commit)?;
    let is_rebase = flag(pairs, Field::Rebase)?;
    let is_too_big = flag(pairs, Field::TooBig)?;
    let before = link(pairs, Field::PrevData)?;
    Ok(Said {
        items: ops,
        rev,
        seq,
        did,
        time,
        since,
        blocks,
        commit,
        is_rebase,
        is_too_big,
        before,
    })
}

/// Whether there are no more operations than a message may have.
fn are_few<A: Allocator>(items: &Vec<Value<'_, A>, A>) -> bool
    ensures { result ≡ nat_le (count_values (view_items items.now.items)) most_ops }
{
    items.len() <= MOST_OPS
}

/// Whether a CAR file is no longer than a message may have it.
fn is_small(blocks: &[u8]) -> bool
    ensures { result ≡ nat_le (length blocks.now) most_blocks_bytes }
{
    blocks.len() <= MOST_BLOCKS_BYTES
}

/// Whether a revision is after the one before, if there was one: else `FormFault::BadSince` or `FormFault::RevOrder`. Takes no
/// memory.
pub fn test_since(since: Option<&[u8]>, rev: &[u8]) -> Result<(), FormFault>
    ensures { Gives (λ x. x) form_fault_of result
        (since_test (option_map (λ s. s.now) since.entry) rev.now) }
{
    let Some(since) = since else {
        return Ok(());
    };
    if !is_tid(since) {
        return Err(FormFault::BadSince);
    }
    if !since.cmp(rev).is_lt() {
        return Err(FormFault::RevOrder);
    }
    Ok(())
}

/// Whether what the fields say is in bounds and of lawful form.
#[tactic(auto, unfolding(event_laws::specs::Reading::said_test))]
pub(crate) fn test_said<A: Allocator>(said: &Said<'_, '_, A>) -> Result<(), FormFault>
    ensures { Gives (λ x. x) form_fault_of result (said_test (said_of said.now)) }
{
    if said.is_rebase {
        return Err(FormFault::Rebase);
    }
    if said.is_too_big {
        return Err(FormFault::TooBig);
    }
    if !are_few(said.items) {
        return Err(FormFault::TooManyOps);
    }
    if !is_small(said.blocks) {
        return Err(FormFault::BlocksSize);
    }
    if !is_did(said.did) {
        return Err(FormFault::BadDid);
    }
    if !is_tid(said.rev) {
        return Err(FormFault::BadRev);
    }
    test_since(said.since, said.rev)?;
    if !is_time(said.time) {
        return Err(FormFault::BadTime);
    }
    Ok(())
}
