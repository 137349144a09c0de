ghost use Rattle.std.specs.Prelude.{◌≡◌, refl, ◌++◌, ℕ, List, take, drop, true, IfOk, Some, None, Ok, Err, if◌then◌else◌};
ghost use Rattle.std.specs.Int.{w64, from_be_bytes, from_le_bytes};
ghost use Rattle.std.specs.Str.{bytes_eq};
ghost use Rattle.std.specs.Hash as fed;
ghost use Rattle.std.specs.Cmp.Lexicographic.{slice_cmp, nat_list_cmp_total, texts_po, texts_ties};
ghost use Rattle.std.specs.Ordering.{nat_cmp};
ghost use Rattle.std.specs.Cmp.Rules.{hashing};
ghost use Rattle.std.proofs.Common.{rules};
ghost use Rattle.spec.specs.Cid.{cid as cid_of, prefix, is_own_cid, text as text_of, cid_of_text};
ghost use Rattle.spec.specs.Reading.{Gives, IsBytes};
ghost use Rattle.cid.specs.CidFault.{cid_fault_of};
ghost use Rattle.cid.specs.declared.cid_fault.CidFault.TheVariants.{NotThisProfile};

use crate::base32;
use crate::cid_fault::CidFault;
use crate::cid_ref::CidRef;
use crate::digest::Digest;
use std::cmp::Ordering;
use std::convert::TryFrom;
use std::fmt;
use std::hash::{Hash, Hasher};
use std::marker::Model;
use std::str::FromStr;

/// The identifier of a block of this host: 36 bytes, ordered and compared bytewise.
///
/// The bytes are `01` (version 1), `71` (dag-cbor), `12` (sha2-256), `20` (32 bytes) and the digest of the block
/// (CIDv1; multicodec; multihash). There is no other value of this type.
#[derive(Clone, Copy, PartialEq, Eq, Debug)]
pub struct Cid {
    pub(crate) bytes: [u8; 36],
}

impl Model for Cid {
    ghost Value = { List ℕ };

    ghost view = { λ c. c.bytes };

    ghost invariant = { λ c. is_own_cid c.bytes ≡ true };

    ghost inverse = { λ bytes. record { bytes = bytes } };
}

const PREFIX: [u8; 4] = [0x01, 0x71, 0x12, 0x20];

impl Cid {
    /// The CID of a block of these bytes under the digest `D`.
    #[tactic(auto, unfolding(spec::specs::Cid::cid))]
    pub fn of<D: Digest>(bytes: &[u8]) -> Cid
        ensures value { result ≡ cid_of D.digest_of bytes.now }
    {
        Cid::of_digest(&D::digest(bytes))
    }

    /// The CID of a block with this digest. Who has the digests of many blocks at once makes their CIDs of them.
    pub fn of_digest(digest: &[u8; 32]) -> Cid
        ensures value { result ≡ prefix ++ digest.now }
    {
        let mut whole = [0; 36];
        whole[..4].copy_from_slice(&PREFIX);
        whole[4..].copy_from_slice(digest);
        Cid { bytes: whole }
    }

    /// These bytes as an identifier, or `None` where they don't begin with `01 71 12 20` (CIDv1).
    pub fn from_bytes(bytes: [u8; 36]) -> Option<Cid>
        ensures { result ≡ (if is_own_cid bytes then Some bytes else None) }
    {
        if has_own_prefix(&bytes) {
            Some(Cid { bytes })
        } else {
            None
        }
    }

    /// The 36 bytes.
    pub fn as_bytes(&self) -> &[u8; 36]
        ensures bytes { result.now ≡ self.now }
        ensures own { is_own_cid self.now ≡ true }
    {
        &self.bytes
    }

    /// Whether two identifiers are the same, by their last bytes first, in which most that aren't differ.
    pub fn is_same(&self, other: &Cid) -> bool
        ensures { result ≡ bytes_eq self.now other.now }
    {
        CidRef::from(self).is_same(CidRef::from(other))
    }

    /// The text: the multibase prefix `b` and 58 letters of base32 in lower case (CIDv1; RFC 4648, section 6).
    pub fn text(&self) -> [u8; 59]
        ensures value { result ≡ text_of self.now }
        ensures reads_back { cid_of_text result ≡ Ok self.now }
    {
        let mut text = [b'b'; 59];
        text[1..].copy_from_slice(&base32::letters(&self.bytes));
        text
    }

    /// The identifier with this text, or the first of the five faults, in the order in which `CidFault` lists them.
    #[tactic(auto, unfolding(spec::specs::Cid::cid_of_text))]
    pub fn from_text(text: &[u8]) -> Result<Cid, CidFault>
        ensures read { Gives (λ cid. cid) cid_fault_of result (cid_of_text text.now) }
        ensures text { IfOk result (λ cid. text.now ≡ text_of cid) }
    {
        if text.len() != 59 {
            return Err(CidFault::BadLength);
        }
        if text[0] != b'b' {
            return Err(CidFault::BadPrefix);
        }
        let Some(bytes) = base32::bytes(&text[1..]) else {
            return Err(CidFault::BadLetter);
        };
        if base32::value(text[58]) % 4 != 0 {
            return Err(CidFault::BadBits);
        }
        Cid::try_from(bytes)
    }
}

/// Whether these are the bytes of an identifier of this host.
pub(crate) fn has_own_prefix(bytes: &[u8; 36]) -> bool
    ensures { result ≡ is_own_cid bytes.now }
{
    matches!(bytes, [0x01, 0x71, 0x12, 0x20, ..])
}

impl TryFrom<[u8; 36]> for Cid {
    type Error = CidFault;

    ghost try_from_gives = { λ bytes r.
        r ≡ (if is_own_cid bytes then Ok bytes else Err NotThisProfile) };

    fn try_from(bytes: [u8; 36]) -> Result<Cid, CidFault> {
        Cid::from_bytes(bytes).ok_or(CidFault::NotThisProfile)
    }
}

/// The first eight bytes of a CID's digest as one number, the highest first.
fn front(b: &[u8; 36]) -> u64
    ensures value { result ≡ from_be_bytes w64 (take 8 (drop 4 b.now)) }
    ensures fits { IsBytes b.now }
{
    u64::from_be_bytes([b[4], b[5], b[6], b[7], b[8], b[9], b[10], b[11]])
}

impl PartialOrd for Cid {
    ghost partial_cmp = { λ x y. Some (slice_cmp nat_cmp x y) };

    ghost laws = { texts_po };

    fn partial_cmp(&self, other: &Cid) -> Option<Ordering> {
        Some(self.cmp(other))
    }
}

impl Ord for Cid {
    ghost cmp = { slice_cmp nat_cmp };

    ghost total = { nat_list_cmp_total };

    ghost matches_partial_cmp = { λ x y. refl };

    ghost matches_eq = { texts_ties };

    /// All begin with the same four bytes, so the first eight of the digest, as one number, nearly always decide.
    fn cmp(&self, other: &Cid) -> Ordering {
        match front(&self.bytes).cmp(&front(&other.bytes)) {
            Ordering::Equal => self.bytes.cmp(&other.bytes),
            order => order,
        }
    }
}

impl Hash for Cid {
    ghost hash_input = { λ c. fed.u64 (from_le_bytes w64 (take 8 (drop 4 c))) };

    ghost respects_eq = { Prim.search (hashing, rules) };

    /// The first eight bytes of the digest as one number: no more is needed to spread identifiers, and it is cheap.
    fn hash<H: Hasher>(&self, state: &mut H) {
        let b = &self.bytes;
        state.write_u64(u64::from_le_bytes([b[4], b[5], b[6], b[7], b[8], b[9], b[10], b[11]]));
    }
}

/// Writes the text of the identifier.
impl fmt::Display for Cid {
    ghost output = { λ cid. Some (text_of cid) };

    fn fmt<W: fmt::Write>(&self, f: &mut fmt::Formatter<W>) -> fmt::Result {
        let text = self.text();
        f.write_str(str::from_utf8(&text).unwrap())
    }
}

/// Reads the text of an identifier, as `Cid::from_text` does.
impl FromStr for Cid {
    type Err = CidFault;

    ghost from_str_gives = { λ text r. Gives (λ cid. cid) cid_fault_of r (cid_of_text text) };

    fn from_str(text: &str) -> Result<Cid, CidFault> {
        Cid::from_text(text.as_bytes())
    }
}
