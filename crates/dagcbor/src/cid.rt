//! Which bytes in a link are a CID.

ghost use Rattle.std.specs.Prelude.{◌≡◌};
ghost use Rattle.spec.specs.Cid.{is_cid, is_version_1};

use crate::number::varint;

/// Whether these are a CID of version 1: `01`, a codec, a hash code, a digest length, and a digest of that length (CIDv1,
/// multihash).
fn is_version_1(bytes: &[u8]) -> bool
    ensures { result ≡ is_version_1 bytes.now }
{
    let Some((1, hashed)) = bytes.split_first() else {
        return false;
    };
    let Some((_, hashed)) = varint(hashed) else {
        return false;
    };
    let Some((_, sized)) = varint(hashed) else {
        return false;
    };
    let Some((size, digest)) = varint(sized) else {
        return false;
    };
    digest.len() as u64 == size
}

/// Whether these bytes are a CID: of version 0, which is `12 20` and 32 bytes; or of version 1, which is `01`, a codec, a hash
/// code and a digest length as unsigned LEB128 numbers, and a digest of that length (CIDv1; multihash; that every codec and
/// hash is taken is this repository's own choice).
pub(crate) fn is_cid(bytes: &[u8]) -> bool
    ensures { result ≡ is_cid bytes.now }
{
    let is_version_0 = bytes.len() == 34 && bytes[0] == 0x12 && bytes[1] == 0x20;
    is_version_0 || is_version_1(bytes)
}
