//! Identifiers, their texts, their order and hash, and blocks under them.
ghost use Rattle.std.specs.Prelude.{◌<◌};

use crate::fixtures::{EMPTY_NODE, block};
use block::{Block, Collided};
use cid::digests::Clash;
use cid::{Cid, CidFault, CidRef, Sha256};
use std::alloc::Global;
use std::cmp::Ordering;
use std::hash::{DefaultHasher, Hash, Hasher};
use std::str::FromStr;
use std::sync::Arc;

/// The text of the CID of the empty node.
const EMPTY_NODE_TEXT: [u8; 59] = *b"bafyreie5737gdxlw5i64vzichcalba3z2v5n6icifvx5xytvske7mr3hpm";

/// Whether this is the CID of these texts.
fn is_cid_of(cid: Cid, text: &str, bytes: &[u8; 59]) -> bool {
    cid.text() == *bytes && Cid::from_text(bytes) == Ok(cid) && Cid::from_str(text) == Ok(cid)
}

/// Whether a CID, of its own and lent, is printed as this text.
fn is_printed_as(alloc: Global, cid: Cid, text: &str) -> bool {
    match format!(in alloc; "{cid} {}", CidRef::from(&cid)) {
        Ok(shown) => shown.split_once(' ') == Some((text, text)),
        Err(_) => false,
    }
}

#[test]
fn text_of_the_empty_node(rt: HostRuntime) {
    let cid = Cid::of::<Sha256>(&EMPTY_NODE);
    let text = "bafyreie5737gdxlw5i64vzichcalba3z2v5n6icifvx5xytvske7mr3hpm";
    assert!(rt; is_cid_of(cid, text, &EMPTY_NODE_TEXT) && is_printed_as(rt.alloc(), cid, text));
}

/// The text of the empty node's CID with another byte at one place.
fn with_byte(at: usize, byte: u8) -> [u8; 59]
    requires { at < 59 }
{
    let mut text = EMPTY_NODE_TEXT;
    text[at] = byte;
    text
}

/// Whether a text has this fault.
fn has_fault(text: &[u8], fault: CidFault) -> bool {
    Cid::from_text(text) == Err(fault)
}

#[test]
fn cid_text_faults(rt: HostRuntime) {
    assert!(rt;
        has_fault(&EMPTY_NODE_TEXT[..58], CidFault::BadLength)
            && has_fault(&with_byte(0, b'z'), CidFault::BadPrefix)
            && has_fault(&with_byte(1, b'1'), CidFault::BadLetter)
            && has_fault(&with_byte(58, b'n'), CidFault::BadBits)
            && has_fault(&with_byte(3, b'k'), CidFault::NotThisProfile)
    );
}

#[test]
fn faults_come_in_their_order(rt: HostRuntime) {
    let mut low_bits = [b'n'; 59];
    low_bits[0] = b'b';
    let mut letter = low_bits;
    letter[30] = 0xff;
    assert!(rt;
        has_fault(b"", CidFault::BadLength)
            && has_fault(&[b'!'; 58], CidFault::BadLength)
            && has_fault(&[b'!'; 59], CidFault::BadPrefix)
            && has_fault(&low_bits, CidFault::BadBits)
            && has_fault(&letter, CidFault::BadLetter)
    );
}

#[test]
fn a_fault_tells_what_is_wrong(rt: HostRuntime) {
    let shown = format!(in rt.alloc(); "{}", CidFault::BadLetter).expect(&rt, "memory");
    assert!(rt; shown.as_str() == "a CID has only the letters a to z and the digits 2 to 7");
}

/// The CID with this digest.
fn with_digest(digest: [u8; 32]) -> Option<Cid> {
    let mut bytes = [0; 36];
    bytes[..4].copy_from_slice(&[0x01, 0x71, 0x12, 0x20]);
    bytes[4..].copy_from_slice(&digest);
    Cid::from_bytes(bytes)
}

/// Whether the CID with this digest reads back from its text.
fn reads_back(digest: [u8; 32]) -> bool {
    match with_digest(digest) {
        Some(cid) => Cid::from_text(&cid.text()) == Ok(cid),
        None => false,
    }
}

#[test]
fn texts_read_back(rt: HostRuntime) {
    let mut counting = [0; 32];
    for (place, byte) in counting.iter_mut().enumerate() {
        *byte = (place % 256) as u8;
    }
    assert!(rt; reads_back([0x00; 32]) && reads_back([0xff; 32]) && reads_back(counting));
    let zeros = with_digest([0; 32]).expect(&rt, "this profile");
    assert!(rt; zeros.text() == *b"bafyreiaaaaaaaaaaaaaaaaaaaaaaaaaaaaaaaaaaaaaaaaaaaaaaaaaaaa");
}

/// Whether each way from these bytes to a CID of its own gives this one.
fn become_cid(bytes: [u8; 36], cid: Cid) -> bool {
    Cid::from_bytes(bytes) == Some(cid) && Cid::try_from(bytes) == Ok(cid)
}

/// Whether a lent CID has these bytes, and is this one.
fn is_lent(lent: CidRef<'_>, bytes: &[u8; 36], cid: Cid) -> bool {
    lent.as_bytes() == bytes
        && lent.to_cid() == cid
        && Cid::from(lent) == cid
        && lent == CidRef::from(&cid)
}

/// Whether these bytes become a lent CID, which is this one.
fn become_lent_cid(bytes: &[u8; 36], cid: Cid) -> bool {
    match CidRef::from_bytes(bytes) {
        Some(lent) => is_lent(lent, bytes, cid),
        None => false,
    }
}

/// Whether no way from these bytes to a CID gives one.
fn become_none(bytes: [u8; 36]) -> bool {
    Cid::from_bytes(bytes).is_none()
        && Cid::try_from(bytes) == Err(CidFault::NotThisProfile)
        && CidRef::from_bytes(&bytes).is_none()
}

#[test]
fn bytes_become_cids(rt: HostRuntime) {
    let cid = Cid::of::<Sha256>(b"a");
    let bytes = *cid.as_bytes();
    assert!(rt; become_cid(bytes, cid) && become_lent_cid(&bytes, cid));

    let mut raw = bytes;
    raw[1] = 0x55;
    assert!(rt; become_none(raw) && CidRef::from_bytes(&bytes[1..]).is_none());
}

/// Whether this CID is the lower one, of its own and lent, from both sides.
fn is_lower(less: Cid, more: Cid) -> bool {
    less.cmp(&more) == Ordering::Less
        && more.cmp(&less) == Ordering::Greater
        && less < more
        && CidRef::from(&less) < CidRef::from(&more)
}

/// The digest with bytes 0x55 before this place, a lower one at it and greater ones after it.
fn lower_at(place: usize) -> [u8; 32]
    requires { place < 32 }
{
    let mut digest = [0xff; 32];
    digest[..place].fill(0x55);
    digest[place] = 0x54;
    digest
}

/// Whether the CID with one digest is lower than that with the other.
fn are_ordered(less: [u8; 32], more: [u8; 32]) -> bool {
    match (with_digest(less), with_digest(more)) {
        (Some(less), Some(more)) => is_lower(less, more) && less.cmp(&less) == Ordering::Equal,
        _ => false,
    }
}

#[test]
fn cids_are_ordered_bytewise(rt: HostRuntime) {
    assert!(rt; are_ordered([0x00; 32], [0xff; 32]));
    for place in 0..32 {
        // The first byte that differs decides, whatever comes after it.
        assert!(rt;
            are_ordered(lower_at(place), [0x55; 32]),
            "at byte {place} of the digest"
        );
    }
}

fn hash_of<T: Hash>(value: &T) -> u64 {
    let mut state = DefaultHasher::new();
    value.hash(&mut state);
    state.finish()
}

#[test]
fn a_cid_hashes_as_the_first_eight_bytes_of_its_digest(rt: HostRuntime) {
    let cid = with_digest([7; 32]).expect(&rt, "this profile");
    assert!(rt; hash_of(&cid) == hash_of(&0x0707_0707_0707_0707u64));
}

/// Whether the pair shows the blocks of these bytes.
fn shows_both(pair: &Collided<Clash>, one: &[u8], other: &[u8]) -> bool {
    pair.one().bytes() == one && pair.other().bytes() == other
}

#[test]
fn blocks_and_collisions(rt: HostRuntime) {
    let one: Arc<Block<Clash>> = block(&rt, rt.alloc(), b"one");
    let other = block(&rt, rt.alloc(), b"other");
    let cid = one.cid();
    assert!(rt; cid == other.cid() && one.bytes() != other.bytes());
    let pair = Collided::new(one, other);
    assert!(rt; cid == Cid::of::<Clash>(b"one") && shows_both(&pair, b"one", b"other"));
}

fn is_shared_by_threads<T: Send + Sync>() {}

#[test]
fn blocks_and_collisions_are_shared_by_threads() {
    is_shared_by_threads::<Block<Sha256>>();
    is_shared_by_threads::<Collided<Sha256>>();
}
