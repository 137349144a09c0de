//! The root of a listing's tree, and the CAR file of a repository that takes it as one batch.

ghost use Rattle.std.specs.Prelude.{◌≡◌, ◌++◌, length, map, option_map, nat_eq, false, true, IfOk, OnOk};
ghost use Rattle.spec.specs.NodeFormat.{is_ascending as is_ascending_of};
ghost use Rattle.batches.specs.Values.{stamp_of, writes_of};
ghost use Rattle.scratch.specs.Pairs.{pairs_of};
ghost use Rattle.buffers.specs.Framing.{cut};
ghost use Rattle.owned_repo.specs.Owning.{opened};
ghost use Rattle.tizulgech.specs.Trees.{batch_number, listing, puts, puts_in, IsFileOf, IsFiled, IsListed, IsTreeOf};
ghost use Rattle.buffers.specs.Answers.{IsKept};
ghost use Rattle.tizulgech.specs.Causes.{HasCause};

use crate::codes::{BAD, CLASH, FULL, NO_MEMORY};
use crate::files::car_handed;
use crate::opening::code_of_opening;
use crate::stamps::stamp_of_bytes;
use batches::{RepoFault, Stamp, Write};
use buffers::{DONE, pairs, slices};
use cid::{Cid, Sha256};
use owned_repo::OwnedRepo;
use scratch::{ScratchFault, build, is_ascending};
use std::alloc::{AllocError, Global};

/// 0, the root and the number of nodes of the tree of these pairs; 252 for what is no listing; 3 for keys that don't ascend,
/// or have no bytes or more than 1,024; 253 for a clash; 255 for want of memory.
#[unsafe(no_mangle)]
pub extern "C" fn tizulgech_tree_root(
    alloc: Global,
    keys: &[u8],
    ends: &[usize],
    cids: &[u8],
    out: &mut [u8],
    nodes: &mut usize,
) -> u8
    requires { length out.old ≡ 36 }
    ensures answer { nat_eq result 255 ≡ false → IsListed result out.new nodes.new
        (listing keys.now ends.now cids.now) }
    ensures root { ¬ (result ≡ 0) → out.new ≡ out.old }
    ensures count { ¬ (result ≡ 0) → nodes.new ≡ nodes.old }
{
    let Ok(pairs) = pairs_at(alloc, keys, ends, cids) else {
        return NO_MEMORY;
    };
    let Some(pairs) = pairs else {
        return BAD;
    };
    if !is_ascending(&pairs) {
        return 3;
    }
    root_told(alloc, &pairs, out, nodes)
}

/// The pairs of a listing.
fn pairs_at(
    alloc: Global,
    keys: &[u8],
    ends: &[usize],
    cids: &[u8],
) -> Result<Option<Vec<(Vec<u8>, Cid)>>, AllocError>
    ensures { IfOk result (λ pairs. option_map (λ pairs. pairs_of
        (λ key. key.items) pairs.items) pairs
        ≡ listing keys.now ends.now cids.now) }
{
    let Some(parts) = slices(alloc, keys, ends)? else {
        return Ok(None);
    };
    pairs(alloc, &parts, cids)
}

/// The same of pairs that have a tree.
fn root_told(alloc: Global, pairs: &[(Vec<u8>, Cid)], out: &mut [u8], nodes: &mut usize) -> u8
    requires ascending { is_ascending_of (pairs_of (λ key. key.items) pairs.now) ≡ true }
    requires room { length out.old ≡ 36 }
    ensures answer { IsTreeOf result out.new nodes.new (pairs_of (λ key. key.items) pairs.now) }
    ensures root { ¬ (result ≡ 0) → out.new ≡ out.old }
    ensures count { ¬ (result ≡ 0) → nodes.new ≡ nodes.old }
{
    match build::<Sha256, 2, _, _>(alloc, pairs) {
        Ok(built) => {
            out.copy_from_slice(built.root.as_bytes());
            *nodes = built.blocks.len();
            DONE
        }
        Err(ScratchFault::Clash(_)) => CLASH,
        Err(ScratchFault::NoMemory) => NO_MEMORY,
    }
}

/// The puts of keys and records.
fn puts_of(alloc: Global, keys: &[&[u8]], records: &[&[u8]]) -> Result<Vec<Write>, AllocError>
    requires { length keys.now ≡ length records.now }
    ensures { IfOk result (λ writes. writes_of writes.items
        ≡ puts (map (λ key. key.now) keys.now) (map (λ bytes. bytes.now) records.now)) }
{
    let mut writes = Vec::new(alloc);
    let mut place = 0;
    while place < keys.len() {
        let key = Vec::from_slice(alloc, keys[place])?;
        let bytes = Vec::from_slice(alloc, records[place])?;
        writes.push(Write::Put(key, bytes))?;
        place += 1;
    }
    Ok(writes)
}

/// The puts of a listing.
fn puts_at(
    alloc: Global,
    keys: &[u8],
    key_ends: &[usize],
    records: &[u8],
    record_ends: &[usize],
) -> Result<Option<Vec<Write>>, AllocError>
    ensures { IfOk result (λ writes. option_map (λ writes. writes_of writes.items) writes
        ≡ puts_in (cut 0 key_ends.now keys.now) (cut 0 record_ends.now records.now)) }
{
    let Some(keys) = slices(alloc, keys, key_ends)? else {
        return Ok(None);
    };
    let Some(records) = slices(alloc, records, record_ends)? else {
        return Ok(None);
    };
    if keys.len() != records.len() {
        return Ok(None);
    }
    Ok(Some(puts_of(alloc, &keys, &records)?))
}

/// The CAR file of a repository whose one batch puts these records under this stamp: 0 and the file; 32 where a repository
/// doesn't take them, or there are none; 251 where `out` has not the room of `size` bytes; 252 for what is no listing; 253 for a
/// clash; 254 for a full store; 255 for want of memory.
#[unsafe(no_mangle)]
pub extern "C" fn tizulgech_listing_car(
    alloc: Global,
    did: &[u8],
    rev: &[u8],
    keys: &[u8],
    key_ends: &[usize],
    records: &[u8],
    record_ends: &[usize],
    out: &mut [u8],
    size: &mut usize,
) -> u8
    ensures file { nat_eq result 255 ≡ false → IsFiled result out.old out.new size.new
        (record { did = did.now; rev = rev.now })
        (puts_in (cut 0 key_ends.now keys.now) (cut 0 record_ends.now records.now)) }
    ensures kept { IsKept result out.old out.new size.old size.new }
    ensures cause { HasCause result }
{
    let Ok(writes) = puts_at(alloc, keys, key_ends, records, record_ends) else {
        return NO_MEMORY;
    };
    let Some(writes) = writes else {
        return BAD;
    };
    let Ok(stamp) = stamp_of_bytes(alloc, did, rev) else {
        return NO_MEMORY;
    };
    file_told(alloc, &stamp, writes, out, size)
}

/// The same of writes.
fn file_told(
    alloc: Global,
    stamp: &Stamp,
    writes: Vec<Write>,
    out: &mut [u8],
    size: &mut usize,
) -> u8
    ensures file { IsFileOf result out.old out.new size.new
        (stamp_of stamp.now) (writes_of writes.items) }
    ensures kept { IsKept result out.old out.new size.old size.new }
    ensures cause { HasCause result }
{
    match OwnedRepo::open(alloc, 1_048_576) {
        Ok(mut repo) => batch_filed(alloc, &mut repo, stamp, writes, out, size),
        Err(fault) => code_of_opening(&fault),
    }
}

/// The same of a repository without writes, which takes them.
fn batch_filed(
    alloc: Global,
    repo: &mut OwnedRepo,
    stamp: &Stamp,
    writes: Vec<Write>,
    out: &mut [u8],
    size: &mut usize,
) -> u8
    requires { repo.old ≡ opened 1048576 }
    ensures file { IsFileOf result out.old out.new size.new
        (stamp_of stamp.now) (writes_of writes.items) }
    ensures kept { IsKept result out.old out.new size.old size.new }
    ensures cause { HasCause result }
{
    let Ok(()) = stage_all(repo, writes) else {
        return NO_MEMORY;
    };
    match repo.apply(alloc, stamp) {
        Ok(_) => car_handed(alloc, repo, out, size),
        Err((_, fault)) => code_of_batch(&fault),
    }
}

/// All of these writes wait for a stamp.
fn stage_all(repo: &mut OwnedRepo, writes: Vec<Write>) -> Result<(), AllocError>
    ensures { OnOk result (repo.new ≡ record {
      state = repo.old.state;
      pending = repo.old.pending ++ writes_of writes.items;
    }) }
{
    for write in writes {
        repo.stage(write)?;
    }
    Ok(())
}

/// The number of a fault of the one batch.
fn code_of_batch(fault: &RepoFault<Sha256>) -> u8
    ensures { result ≡ batch_number fault.now }
{
    match fault {
        RepoFault::Collision(_) => CLASH,
        RepoFault::StoreFull => FULL,
        RepoFault::NoMemory => NO_MEMORY,
        _ => 32,
    }
}
