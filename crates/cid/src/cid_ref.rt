ghost use Rattle.std.specs.Prelude.{◌≡◌, true, take, drop, Some, None, option_map, if◌then◌else◌};
ghost use Rattle.std.specs.Int.{w64, from_le_bytes};
ghost use Rattle.std.specs.Str.{bytes_eq};
ghost use Rattle.std.specs.Hash as fed;
ghost use Rattle.std.specs.Cmp.Rules.{hashing};
ghost use Rattle.std.proofs.Common.{rules};
ghost use Rattle.spec.specs.Cid.{is_own_cid, text as text_of};

use crate::cid::{Cid, has_own_prefix};
use std::fmt;
use std::hash::{Hash, Hasher};

/// The identifier of a block of this host in 36 bytes that are lent, ordered and compared bytewise.
///
/// It is to `Cid` what `&str` is to `String`: a part of a node, seen where it lies.
#[derive(Clone, Copy, PartialEq, Eq, PartialOrd, Ord, Debug)]
pub struct CidRef<'a> {
    bytes: &'a [u8; 36],
    pub ghost own: { is_own_cid bytes.now ≡ true },
}

impl<'a> CidRef<'a> {
    ghost use Rattle.cid.specs.CidRef.{bytes_of};

    /// These bytes as an identifier, or `None` where they aren't 36 or don't begin with `01 71 12 20` (CIDv1).
    pub fn from_bytes(bytes: &'a [u8]) -> Option<CidRef<'a>>
        ensures { option_map bytes_of result
            ≡ (if is_own_cid bytes.now then Some bytes.now else None) }
    {
        let bytes = <&[u8; 36]>::try_from(bytes).ok()?;
        if has_own_prefix(bytes) {
            Some(CidRef { bytes })
        } else {
            None
        }
    }

    /// The 36 bytes.
    pub fn as_bytes(self) -> &'a [u8; 36]
        ensures { result.now ≡ bytes_of self.entry }
    {
        self.bytes
    }

    /// The identifier with bytes of its own.
    pub fn to_cid(self) -> Cid
        ensures { result ≡ bytes_of self.entry }
    {
        Cid { bytes: *self.bytes }
    }

    /// Whether two identifiers are the same, by their last bytes first, in which most that aren't differ.
    pub fn is_same(self, other: CidRef<'_>) -> bool
        ensures { result ≡ bytes_eq (bytes_of self.entry) (bytes_of other.entry) }
    {
        other.bytes[35] == self.bytes[35] && self == other
    }
}

impl Hash for CidRef<'_> {
    ghost use Rattle.cid.specs.CidRef.{bytes_of};

    ghost hash_input = { λ c. fed.u64 (from_le_bytes w64 (take 8 (drop 4 (bytes_of c)))) };

    ghost respects_eq = { Prim.search (hashing, rules) };

    /// The first eight bytes of the digest as one number, as for `Cid`.
    fn hash<H: Hasher>(&self, state: &mut H) {
        let b = self.bytes;
        state.write_u64(u64::from_le_bytes([b[4], b[5], b[6], b[7], b[8], b[9], b[10], b[11]]));
    }
}

impl<'a> From<&'a Cid> for CidRef<'a> {
    ghost use Rattle.cid.specs.CidRef.{bytes_of};

    ghost from_gives = { λ cid lent. bytes_of lent ≡ cid.now };

    fn from(cid: &'a Cid) -> CidRef<'a> {
        CidRef { bytes: &cid.bytes }
    }
}

impl<'a> From<CidRef<'a>> for Cid {
    ghost use Rattle.cid.specs.CidRef.{bytes_of};

    ghost from_gives = { λ lent cid. cid ≡ bytes_of lent };

    fn from(lent: CidRef<'a>) -> Cid {
        lent.to_cid()
    }
}

/// Writes the text of the identifier.
impl fmt::Display for CidRef<'_> {
    ghost use Rattle.cid.specs.CidRef.{bytes_of};

    ghost output = { λ lent. Some (text_of (bytes_of lent)) };

    fn fmt<W: fmt::Write>(&self, f: &mut fmt::Formatter<W>) -> fmt::Result {
        self.to_cid().fmt(f)
    }
}
