//! Sections of blocks that are written once.

ghost use Rattle.std.specs.Prelude.{◌≡◌, length, IfOk, OnOk};
ghost use Rattle.spec.specs.Cid.{cid as cid_of};
ghost use Rattle.export.specs.Founds.{bytes_found, seen_found};
ghost use Rattle.export.specs.Once.{HasNoted, IsNewOr, section_once};
ghost use Rattle.export.specs.Outs.{HasCause, Takes};

use crate::export_fault::ExportFault;
use crate::found::Found;
use crate::out::Out;
use crate::sections::write_section;
use crate::seen::Seen;
use block::Block;
use cid::Digest;
use std::alloc::Allocator;
use std::sync::Arc;

/// Writes the section of a block unless one with its CID was written, and answers how many bytes that are.
#[inline(always)]
pub(crate) fn write_once<D: Digest, A: Allocator + Clone, W: Out>(
    seen: &mut Seen<A>,
    out: &mut W,
    found: &Found<&Arc<Block<D, A>, A>>,
) -> Result<u64, ExportFault>
    requires { IsNewOr found.now.may_repeat seen.now
        (cid_of D.digest_of (bytes_found (seen_found found.now))) }
    ensures taken { Takes (W.taken out.old) (W.taken out.new) result
        (section_once D.digest_of seen.old (bytes_found (seen_found found.now))) }
    ensures length { IfOk result (λ count. count
        ≡ length (section_once D.digest_of seen.old (bytes_found (seen_found found.now)))) }
    ensures seen { OnOk result (HasNoted found.now.may_repeat seen.old
        (cid_of D.digest_of (bytes_found (seen_found found.now))) seen.new) }
    ensures cause { HasCause (W.failures out.old) (W.failures out.new) result }
{
    let block = found.lent;
    if !seen.note(found.may_repeat, block.cid())? {
        return Ok(0);
    }
    Ok(write_section(out, block)?)
}
