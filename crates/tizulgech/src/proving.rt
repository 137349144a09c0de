//! Proofs of the keys of a repository.

ghost use Rattle.std.specs.Prelude.{◌≡◌, ◌++◌, map, IfSome, IfOk, OnOk};
ghost use Rattle.sha2.specs.Sha256.{sha256};
ghost use Rattle.std.specs.Arc.{arc_value};
ghost use Rattle.spec.specs.Blocks.{pairs};
ghost use Rattle.spec.specs.Proof.{path};
ghost use Rattle.spec.specs.States.{records};
ghost use Rattle.buffers.specs.Answers.{parts_bytes, IsKept};
ghost use Rattle.tizulgech.specs.Numbers.{IsHandedOr255};
ghost use Rattle.tizulgech.specs.Handles.{OnlyReads};

use crate::codes::{CLOSED, NO_MEMORY};
use block::Block;
use buffers::{hand, push_part};
use cid::Sha256;
use export::prove;
use owned_repo::{OwnedRepo, Repository};
use std::alloc::{AllocError, Global};
use std::sync::Arc;

/// The proof of a key: for each node of its path, from the top, its length in eight bytes, the lowest first, and its bytes.
#[unsafe(no_mangle)]
pub extern "C" fn tizulgech_prove(
    alloc: Global,
    repository: &mut Repository,
    key: &[u8],
    out: &mut [u8],
    size: &mut usize,
) -> u8
    ensures proof { IfSome repository.old.handle.repo (λ o. IsHandedOr255 result
        (parts_bytes (path sha256 2 (pairs sha256 (records o.state)) key.now))
        out.old out.new size.new) }
    ensures read { OnlyReads result repository.old.handle.repo repository.new.handle.repo }
    ensures kept { IsKept result out.old out.new size.old size.new }
{
    let Some(repo) = repository.taken(alloc) else {
        return CLOSED;
    };
    let code = proof_told(alloc, &repo, key, out, size);
    *repository = Repository::opened(repo);
    code
}

/// The same of a repository.
fn proof_told(alloc: Global, repo: &OwnedRepo, key: &[u8], out: &mut [u8], size: &mut usize) -> u8
    ensures answer { IsHandedOr255 result
        (parts_bytes (path sha256 2 (pairs sha256 (records repo.now.state)) key.now))
        out.old out.new size.new }
    ensures kept { IsKept result out.old out.new size.old size.new }
{
    match proof_bytes(alloc, repo, key) {
        Ok(bytes) => hand(&bytes, out, size),
        Err(_) => NO_MEMORY,
    }
}

/// The proof, spelt.
fn proof_bytes(alloc: Global, repo: &OwnedRepo, key: &[u8]) -> Result<Vec<u8>, AllocError>
    ensures { IfOk result (λ bytes. bytes.items
        ≡ parts_bytes (path sha256 2 (pairs sha256 (records repo.now.state)) key.now)) }
{
    let nodes = prove(alloc, repo.core(), key)?;
    spell_blocks(alloc, &nodes)
}

/// The bytes of blocks, spelt.
pub(crate) fn spell_blocks(
    alloc: Global,
    blocks: &[Arc<Block<Sha256>>],
) -> Result<Vec<u8>, AllocError>
    ensures { IfOk result (λ bytes. bytes.items ≡ parts_bytes (map arc_value blocks.now)) }
{
    let mut bytes = Vec::new(alloc);
    push_blocks(&mut bytes, blocks)?;
    Ok(bytes)
}

/// Puts blocks at the end, each with its length in front.
pub(crate) fn push_blocks(
    bytes: &mut Vec<u8>,
    blocks: &[Arc<Block<Sha256>>],
) -> Result<(), AllocError>
    ensures { OnOk result (bytes.new.items
        ≡ bytes.old.items ++ parts_bytes (map arc_value blocks.now)) }
{
    for block in blocks {
        push_part(bytes, block.bytes())?;
    }
    Ok(())
}
