//! The numbers that calls answer.

ghost use Rattle.std.specs.Prelude.{◌≡◌, length, option_map, IfOk};
ghost use Rattle.batches.specs.Values.{write_of};
ghost use Rattle.tizulgech.specs.Numbers.{record_code, record_number, fault_number, write_at, IsCidTold};

use batches::{RepoFault, Write};
use buffers::DONE;
use cid::{Cid, CidFault, Sha256};
use dagcbor::{CborFault, Value};
use std::alloc::{AllocError, Global};

/// A node that is needed isn't among those given.
pub(crate) const MISSING: u8 = 2;
/// There is no such key, or no commit.
pub(crate) const NONE: u8 = 24;
/// A block is no node.
pub(crate) const BAD_NODE: u8 = 30;
/// A path is longer than any tree is deep.
pub(crate) const TOO_DEEP: u8 = 31;
/// Nodes aren't a tree's.
pub(crate) const NOT_TREE: u8 = 35;
/// There is a repository already.
pub(crate) const OPEN: u8 = 249;
/// There is no repository.
pub(crate) const CLOSED: u8 = 250;
/// An argument is none that the call takes.
pub(crate) const BAD: u8 = 252;
/// Two blocks clash.
pub(crate) const CLASH: u8 = 253;
/// The store is full.
pub(crate) const FULL: u8 = 254;
/// Memory was refused.
pub(crate) const NO_MEMORY: u8 = 255;

/// The number of a fault of a record.
pub(crate) fn fault_of_record(fault: CborFault) -> u8
    ensures { result ≡ record_number fault }
{
    match fault {
        CborFault::Truncated => 1,
        CborFault::LongHead => 2,
        CborFault::Indefinite => 3,
        CborFault::BadTag => 4,
        CborFault::BadLink => 5,
        CborFault::KeyNotText => 6,
        CborFault::KeyOrder => 7,
        CborFault::BadUtf8 => 8,
        CborFault::Float => 9,
        CborFault::Simple => 10,
        CborFault::IntegerRange => 11,
        CborFault::TooDeep => 12,
        CborFault::Trailing => 13,
        CborFault::NoMemory => 255,
    }
}

/// 0 for a value, else the number of the fault.
pub(crate) fn code_of_record(read: &Result<Value<'_>, CborFault>) -> u8
    ensures { result ≡ record_code read.now }
{
    match read {
        Ok(_) => DONE,
        Err(fault) => fault_of_record(*fault),
    }
}

/// The number of a fault of a batch.
pub(crate) fn code_of_fault(fault: &RepoFault<Sha256>) -> u8
    ensures { result ≡ fault_number fault.now }
{
    match fault {
        RepoFault::BadKey => 20,
        RepoFault::BadRecord(fault) => fault_of_record(*fault),
        RepoFault::NotAMap => 21,
        RepoFault::RecordSize => 22,
        RepoFault::KeyExists => 23,
        RepoFault::NoSuchKey => NONE,
        RepoFault::WritesFull => 25,
        RepoFault::Collision(_) => CLASH,
        RepoFault::StoreFull => FULL,
        RepoFault::NoMemory => NO_MEMORY,
        RepoFault::EmptyBatch => 26,
        RepoFault::BadDid => 27,
        RepoFault::BadRev => 28,
        RepoFault::RevOrder => 29,
    }
}

/// The write of a kind, if there is such a kind.
pub(crate) fn write_of_kind(
    alloc: Global,
    kind: u8,
    key: &[u8],
    bytes: &[u8],
) -> Result<Option<Write>, AllocError>
    ensures { IfOk result (λ write. option_map write_of write ≡ write_at kind key.now bytes.now) }
{
    if kind > 3 {
        return Ok(None);
    }
    let key = Vec::from_slice(alloc, key)?;
    if kind == 3 {
        return Ok(Some(Write::Delete(key)));
    }
    let record = Vec::from_slice(alloc, bytes)?;
    if kind == 0 {
        return Ok(Some(Write::Put(key, record)));
    }
    if kind == 1 {
        return Ok(Some(Write::Create(key, record)));
    }
    Ok(Some(Write::Update(key, record)))
}

/// 0 and the CID, else the number of the fault.
pub(crate) fn tell_cid(read: &Result<Cid, CidFault>, out: &mut [u8]) -> u8
    requires { length out.old ≡ 36 }
    ensures read { IsCidTold result out.new read.now }
    ensures kept { ¬ (result ≡ 0) → out.new ≡ out.old }
{
    match read {
        Ok(cid) => {
            out.copy_from_slice(cid.as_bytes());
            DONE
        }
        Err(CidFault::BadLength) => 1,
        Err(CidFault::BadPrefix) => 2,
        Err(CidFault::BadLetter) => 3,
        Err(CidFault::BadBits) => 4,
        Err(CidFault::NotThisProfile) => 5,
    }
}

/// The number of a fault of one node, whose CID is told.
pub(crate) fn tell_node(number: u8, cid: &Cid, missing: &mut [u8]) -> u8
    requires { length missing.old ≡ 36 }
    ensures number { result ≡ number }
    ensures cid { missing.new ≡ cid.now }
{
    missing.copy_from_slice(cid.as_bytes());
    number
}
