//! CAR files whose root is a signed commit.

ghost use Rattle.std.specs.Prelude.{◌≡◌, ◌≤◌, None, length, IfOk};
ghost use Rattle.export_laws.specs.SignedCars.{car_over};
ghost use Rattle.export.specs.Exports.{signed_length, TakesSignedCar};
ghost use Rattle.export.specs.Founds.{bytes_in, found_in, may_repeat, AreMarked};
ghost use Rattle.export.specs.Once.{capped, AreSingle};
ghost use Rattle.export.specs.Outs.{HasCause, Takes};
ghost use Rattle.export.specs.Walks.{blocks_met};

use crate::blocks::write_blocks;
use crate::export_fault::ExportFault;
use crate::out::Out;
use crate::sections::{write_header, write_section};
use crate::seen::Seen;
use crate::walk::Walk;
use batches::{last_stamp, signed_block};
use block::Block;
use cid::{Cid, Digest};
use kept::Lender;
use lookups::layers;
use repo::Core;
use std::alloc::Allocator;

/// Writes a repository as the file that a server serves (AT Protocol, `com.atproto.sync.getRepo`; CARv1): its root is the last
/// batch's commit with this signature, which names no commit before it. Answers how many bytes that are (`u64::MAX` where they
/// are more), or `None` before the first batch, when there is no commit that could be signed: nothing is written then.
///
/// The signature isn't tested. It is one of the bytes of the last batch's commit, `core.commit()`, as the AT Protocol asks: 64
/// bytes.
///
/// First comes the section of the signed commit. Then comes a section for each node of the tree with what is below its first
/// link, and for each of its entries the record and what is below the link after it, as in `car`. Of several nodes and records
/// with one CID the first alone is written.
///
/// `ExportFault::DeviceFault` comes only where the output failed in this call, and `ExportFault::NoMemory` where memory was
/// refused to the call itself. After either the output took a beginning of the file.
pub fn signed_car<D: Digest, const B: u8, A: Allocator + Clone, W: Out>(
    alloc: A,
    core: &Core<D, B, A>,
    signature: &[u8],
    out: &mut W,
) -> Result<Option<u64>, ExportFault>
    requires { 1 ≤ B }
    ensures taken { TakesSignedCar D.digest_of B core.now signature.now
        (W.taken out.old) (W.taken out.new) result }
    ensures length { IfOk result (λ count. count
        ≡ signed_length D.digest_of B core.now signature.now) }
    ensures cause { HasCause (W.failures out.old) (W.failures out.new) result }
{
    let Some(stamp) = last_stamp(core.stamps()) else {
        return Ok(None);
    };
    let root = core.root();
    let commit = signed_block(alloc.clone()?, stamp, &root, signature)?;
    let most = layers::<B>();
    let mut lender = core.lender();
    let length = write_signed(alloc, core, &mut lender, &commit, root, most, out)?;
    Ok(Some(length))
}

/// Writes the file of a signed commit and of the tree with this root, over `most` layers at most: of each block that the
/// source has. It is known of some of them that they stand once; of the others the CIDs are noted.
fn write_signed<'a, D: Digest + 'a, const B: u8, A: Allocator + Clone + 'a, W: Out>(
    alloc: A,
    core: &Core<D, B, A>,
    src: &mut Lender<'a, D, A>,
    commit: &Block<D, A>,
    root: Cid,
    most: u16,
    out: &mut W,
) -> Result<u64, ExportFault>
    requires single { AreSingle D.digest_of (may_repeat D.digest_of B core.now)
        (blocks_met (bytes_in src.now.blocks.now) most None root) }
    requires marked { AreMarked D.digest_of (may_repeat D.digest_of B core.now)
        (found_in src.now.blocks.now) }
    ensures taken { Takes (W.taken out.old) (W.taken out.new) result
        (car_over D.digest_of commit.now
        (blocks_met (bytes_in src.old.blocks.now) most None root)) }
    ensures length { IfOk result (λ count. count ≡ capped (length
        (car_over D.digest_of commit.now
        (blocks_met (bytes_in src.old.blocks.now) most None root)))) }
    ensures cause { HasCause (W.failures out.old) (W.failures out.new) result }
{
    let mut seen = Seen::none(alloc.clone()?);
    let header = write_header(out, &commit.cid())?;
    let first = write_section(out, commit)?;
    let walk = Walk::from_top(alloc, root, most);
    let others = write_blocks(core, src, walk, &mut seen, out)?;
    let sections = first.saturating_add(others);
    Ok(header.saturating_add(sections))
}
