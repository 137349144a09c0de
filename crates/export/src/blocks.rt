//! The sections of a repository's blocks.

ghost use Rattle.std.specs.Prelude.{◌≡◌, length, IfOk, OnOk};
ghost use Rattle.export.specs.Founds.{bytes_in, found_in, may_repeat, AreMarked};
ghost use Rattle.export.specs.Once.{capped, sections, AreRepeats, AreSingle, GoesOn};
ghost use Rattle.export.specs.Outs.{HasCause, Takes};
ghost use Rattle.export.specs.Walks.{blocks_due, blocks_left, commit_block, sections_due, sections_left};

use crate::export_fault::ExportFault;
use crate::once::write_once;
use crate::out::Out;
use crate::seen::Seen;
use crate::walk::{Step, Walk};
use cid::{Cid, Digest};
use kept::Lender;
use lookups::Source;
use repo::Core;
use std::alloc::Allocator;

/// Writes the sections of the commit, if there is one, and of the blocks that a walk is still to come to, and answers how
/// many bytes that are.
pub(crate) fn write_sections<'a, D: Digest + 'a, const B: u8, A: Allocator + Clone + 'a, W: Out>(
    core: &Core<D, B, A>,
    src: &mut Lender<'a, D, A>,
    commit: Option<Cid>,
    walk: Walk<'a, A>,
    seen: &mut Seen<A>,
    out: &mut W,
) -> Result<u64, ExportFault>
    requires noted { AreRepeats (may_repeat D.digest_of B core.now) seen.now }
    requires single { AreSingle D.digest_of (may_repeat D.digest_of B core.now)
        (blocks_due (bytes_in src.now.blocks.now) commit walk) }
    requires marked { AreMarked D.digest_of (may_repeat D.digest_of B core.now)
        (found_in src.now.blocks.now) }
    ensures taken { Takes (W.taken out.old) (W.taken out.new) result
        (sections_due D.digest_of (bytes_in src.old.blocks.now) seen.old commit walk.entry) }
    ensures length { IfOk result (λ count. count ≡ capped (length
        (sections_due D.digest_of (bytes_in src.old.blocks.now) seen.old commit walk.entry))) }
    ensures cause { HasCause (W.failures out.old) (W.failures out.new) result }
{
    let first = write_commit(core, src, seen, out, commit)?;
    let others = write_blocks(core, src, walk, seen, out)?;
    Ok(first.saturating_add(others))
}

/// Writes the section of the commit, if there is one, and answers how many bytes that are.
fn write_commit<'a, D: Digest + 'a, const B: u8, A: Allocator + Clone + 'a, W: Out>(
    core: &Core<D, B, A>,
    src: &mut Lender<'a, D, A>,
    seen: &mut Seen<A>,
    out: &mut W,
    commit: Option<Cid>,
) -> Result<u64, ExportFault>
    requires noted { AreRepeats (may_repeat D.digest_of B core.now) seen.now }
    requires marked { AreMarked D.digest_of (may_repeat D.digest_of B core.now)
        (found_in src.now.blocks.now) }
    ensures taken { Takes (W.taken out.old) (W.taken out.new) result
        (sections D.digest_of seen.old (commit_block (bytes_in src.old.blocks.now) commit)) }
    ensures length { IfOk result (λ count. count
        ≡ length (sections D.digest_of seen.old
        (commit_block (bytes_in src.old.blocks.now) commit))) }
    ensures seen { OnOk result (GoesOn D.digest_of (may_repeat D.digest_of B core.now) seen.old
        (commit_block (bytes_in src.old.blocks.now) commit) seen.new) }
    ensures noted { OnOk result (AreRepeats (may_repeat D.digest_of B core.now) seen.new) }
    ensures cause { HasCause (W.failures out.old) (W.failures out.new) result }
    ensures same { found_in src.new.blocks.now ≡ found_in src.old.blocks.now }
{
    let Some(cid) = commit else {
        return Ok(0);
    };
    let Some(found) = src.get(&cid) else {
        return Ok(0);
    };
    write_once(seen, out, &found)
}

/// Writes the sections of the blocks that a walk is still to come to, and answers how many bytes that are.
///
/// The next block is looked up before the present one is written: both wait for memory that the processor hasn't seen yet,
/// and so they wait at once.
pub(crate) fn write_blocks<'a, D: Digest + 'a, const B: u8, A: Allocator + Clone + 'a, W: Out>(
    core: &Core<D, B, A>,
    src: &mut Lender<'a, D, A>,
    mut walk: Walk<'a, A>,
    seen: &mut Seen<A>,
    out: &mut W,
) -> Result<u64, ExportFault>
    requires noted { AreRepeats (may_repeat D.digest_of B core.now) seen.now }
    requires single { AreSingle D.digest_of (may_repeat D.digest_of B core.now)
        (blocks_left (bytes_in src.now.blocks.now) walk) }
    requires marked { AreMarked D.digest_of (may_repeat D.digest_of B core.now)
        (found_in src.now.blocks.now) }
    ensures taken { Takes (W.taken out.old) (W.taken out.new) result
        (sections_left D.digest_of (bytes_in src.old.blocks.now) seen.old walk.entry) }
    ensures length { IfOk result (λ count. count ≡ capped (length
        (sections_left D.digest_of (bytes_in src.old.blocks.now) seen.old walk.entry))) }
    ensures cause { HasCause (W.failures out.old) (W.failures out.new) result }
{
    let mut written: u64 = 0;
    // Before the first step nothing was found.
    let mut step = Step::Missing;
    'steps: loop {
        match step {
            Step::Found(found) => {
                let next = walk.step(src)?;
                written = written.saturating_add(write_once(seen, out, &found)?);
                step = next;
            }
            Step::Missing => step = walk.step(src)?,
            Step::End => return Ok(written),
        }
    }
}
