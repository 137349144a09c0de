//! Links: tag 42 over a byte string of the byte 00 and a CID (IPLD DAG-CBOR, links).

ghost use Rattle.std.specs.Prelude.{◌≢◌, Err};
ghost use Rattle.spec.specs.Reading.{Gives};
ghost use Rattle.spec.specs.DagCbor.{Link, link_of};
ghost use Rattle.dagcbor.specs.Fault.{cbor_fault_of};

use crate::cid::is_cid;
use crate::fault::CborFault;
use crate::head::{front, head_of};
use crate::major::Major;

/// The tag of a link.
pub const LINK_TAG: u64 = 42;

/// The head of a link: that of its tag.
pub const LINK_HEAD: [u8; 2] = [0xd8, 0x2a];

/// The byte that stands before the CID in a link's byte string.
pub const BEFORE_CID: u8 = 0x00;

/// The CID of a link, behind the head of its tag, and the bytes after it.
pub(crate) fn link(tag: u64, bytes: &[u8]) -> Result<(&[u8], &[u8]), CborFault>
    ensures read { Gives (λ x. (Link x.0.now, x.1.now)) cbor_fault_of result
        (link_of tag bytes.now) }
    ensures takes_no_memory { result ≢ Err CborFault.NoMemory }
{
    if tag != LINK_TAG {
        return Err(CborFault::BadTag);
    }
    let (n, rest) = head_of(Major::ByteString as u8, CborFault::BadLink, bytes)?;
    let (content, rest) = front(n, rest)?;
    match content {
        [BEFORE_CID, cid @ ..] if is_cid(cid) => Ok((cid, rest)),
        _ => Err(CborFault::BadLink),
    }
}
