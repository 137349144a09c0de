//! The parts of a file read from the front, each with the bytes after it (CARv1).

ghost use Rattle.std.specs.Prelude.{◌≡◌, ◌<◌, ◌≤◌, length, option_map, ok_or, IfOk};
ghost use Rattle.spec.specs.Reading.{Gives, front};
ghost use Rattle.cid.specs.CidRef.{bytes_of};
ghost use Rattle.spec.specs.CarReading as reading;
ghost use Rattle.spec.specs.CarReading.{cid_at, header_at, section_at};
ghost use Rattle.car_reader.specs.Views.{car_fault_of, section_of};

use crate::fault::CarFault;
use crate::section::Section;
use cid::CidRef;
use dagcbor::varint;

/// The first `n` bytes.
fn front(n: u64, bytes: &[u8]) -> Result<(&[u8], &[u8]), CarFault>
    ensures read { Gives (λ x. (x.0.now, x.1.now)) car_fault_of result
        (front reading.Truncated n bytes.now) }
    ensures no_longer { IfOk result (λ x. length x.1.now ≤ length bytes.now) }
{
    if (bytes.len() as u64) < n {
        return Err(CarFault::Truncated);
    }
    Ok(bytes.split_at(n as usize))
}

/// The CID at the front, of 36 bytes, and those after it; or none where no CID of a block stands there.
fn cid(bytes: &[u8]) -> Option<(CidRef<'_>, &[u8])>
    ensures { (fault : reading.CarFault)
        → ok_or (option_map (λ x. (bytes_of x.0, x.1.now)) result) fault ≡ cid_at fault bytes.now }
{
    if bytes.len() < 36 {
        return None;
    }
    let (cid, rest) = bytes.split_at(36);
    match CidRef::from_bytes(cid) {
        Some(cid) => Some((cid, rest)),
        None => None,
    }
}

/// What stands in the header before the CID of the root: its length, and a map with `roots`, a list of one link.
const BEFORE_ROOT: &[u8] = b"\x3a\xa2\x65roots\x81\xd8\x2a\x58\x25\x00";

/// What stands after it: `version` 1.
const BEHIND_ROOT: &[u8] = b"\x67version\x01";

/// The root that the header names.
#[tactic(auto, unfolding(spec::specs::CarReading::header_at))]
pub(crate) fn header(file: &[u8]) -> Result<(CidRef<'_>, &[u8]), CarFault>
    ensures { Gives (λ x. (bytes_of x.0, x.1.now)) car_fault_of result (header_at file.now) }
{
    let rest = file.strip_prefix(BEFORE_ROOT).ok_or(CarFault::BadHeader)?;
    let (root, rest) = cid(rest).ok_or(CarFault::BadHeader)?;
    let rest = rest.strip_prefix(BEHIND_ROOT).ok_or(CarFault::BadHeader)?;
    Ok((root, rest))
}

/// A section.
#[tactic(auto, unfolding(spec::specs::CarReading::section_at))]
pub(crate) fn section(bytes: &[u8]) -> Result<(Section<'_>, &[u8]), CarFault>
    ensures read { Gives (λ x. (section_of x.0, x.1.now)) car_fault_of result
        (section_at bytes.now) }
    ensures shorter { IfOk result (λ x. length x.1.now < length bytes.now) }
{
    let Some((length, rest)) = varint(bytes) else {
        return Err(CarFault::BadLength);
    };
    let (body, rest) = front(length, rest)?;
    let (cid, block) = cid(body).ok_or(CarFault::BadCid)?;
    Ok((Section { cid, block }, rest))
}
