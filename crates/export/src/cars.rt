//! CAR files (CARv1).

ghost use Rattle.std.specs.Prelude.{◌≡◌, ◌≤◌, length, IfOk};
ghost use Rattle.spec.specs.Commits.{car_root};
ghost use Rattle.export.specs.Exports.{TakesCar, car_length};
ghost use Rattle.export.specs.Founds.{bytes_in, found_in, may_repeat, AreMarked};
ghost use Rattle.export.specs.Once.{capped, AreSingle};
ghost use Rattle.export.specs.Outs.{HasCause, Takes};
ghost use Rattle.export.specs.Walks.{blocks_met, car_met};

use crate::blocks::write_sections;
use crate::export_fault::ExportFault;
use crate::out::Out;
use crate::sections::write_header;
use crate::seen::Seen;
use crate::walk::Walk;
use cid::{Cid, Digest};
use kept::Lender;
use lookups::layers;
use repo::Core;
use std::alloc::Allocator;

/// Writes a repository as one file, and answers how many bytes that are (`u64::MAX` where they are more).
///
/// The root that the file names is the last batch's commit, and before the first batch the root of the tree. Then comes a
/// section for each block: the commit, and each node of the tree with what is below its first link, and for each of its
/// entries the record and what is below the link after it. Of several blocks with one CID the first alone is written.
///
/// `ExportFault::DeviceFault` comes only where the output failed in this call, and `ExportFault::NoMemory` where memory was
/// refused to the call itself. After either the output took a beginning of the file.
pub fn car<D: Digest, const B: u8, A: Allocator + Clone, W: Out>(
    alloc: A,
    core: &Core<D, B, A>,
    out: &mut W,
) -> Result<u64, ExportFault>
    requires { 1 ≤ B }
    ensures taken { TakesCar D.digest_of B core.now (W.taken out.old) (W.taken out.new) result }
    ensures length { IfOk result (λ count. count ≡ car_length D.digest_of B core.now) }
    ensures cause { HasCause (W.failures out.old) (W.failures out.new) result }
{
    let commit = core.commit();
    let root = core.root();
    let most = layers::<B>();
    let mut lender = core.lender();
    write_car(alloc, core, &mut lender, commit, root, most, out)
}

/// Writes the CAR of a commit, if there is one, and of the tree with this root, over `most` layers at most: of each block
/// that the source has. It is known of some of them that they stand once; of the others the CIDs are noted.
fn write_car<'a, D: Digest + 'a, const B: u8, A: Allocator + Clone + 'a, W: Out>(
    alloc: A,
    core: &Core<D, B, A>,
    src: &mut Lender<'a, D, A>,
    commit: Option<Cid>,
    root: Cid,
    most: u16,
    out: &mut W,
) -> Result<u64, ExportFault>
    requires single { AreSingle D.digest_of (may_repeat D.digest_of B core.now)
        (blocks_met (bytes_in src.now.blocks.now) most commit root) }
    requires marked { AreMarked D.digest_of (may_repeat D.digest_of B core.now)
        (found_in src.now.blocks.now) }
    ensures taken { Takes (W.taken out.old) (W.taken out.new) result
        (car_met D.digest_of (bytes_in src.old.blocks.now) most commit root) }
    ensures length { IfOk result (λ count. count ≡ capped (length
        (car_met D.digest_of (bytes_in src.old.blocks.now) most commit root))) }
    ensures cause { HasCause (W.failures out.old) (W.failures out.new) result }
{
    let mut seen = Seen::none(alloc.clone()?);
    let header = write_header(out, &root_of(commit, root))?;
    let walk = Walk::from_top(alloc, root, most);
    let others = write_sections(core, src, commit, walk, &mut seen, out)?;
    Ok(header.saturating_add(others))
}

/// The root that a CAR names: the commit, and where there is none the root of the tree.
pub(crate) fn root_of(commit: Option<Cid>, root: Cid) -> Cid
    ensures { result ≡ car_root commit root }
{
    match commit {
        Some(cid) => cid,
        None => root,
    }
}
