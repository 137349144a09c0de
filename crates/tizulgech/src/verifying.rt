//! The check of a proof.

ghost use Rattle.std.specs.Prelude.{◌≡◌, length, map, nat_eq, false};
ghost use Rattle.sha2.specs.Sha256.{sha256};
ghost use Rattle.spec.specs.Proof.{verified};
ghost use Rattle.buffers.specs.Framing.{cid_at, cut};
ghost use Rattle.tizulgech.specs.Numbers.{IsProof, IsProofTold, IsVerified};

use crate::codes::{BAD, BAD_NODE, MISSING, NO_MEMORY, NONE, TOO_DEEP};
use buffers::{DONE, cid_in, slices};
use cid::{Cid, Sha256};
use export::{ProofFault, verify_among};
use std::alloc::Global;

/// What the blocks of a proof show of a key under a root: 0 and its value; 24 where the tree doesn't have it; 2 where a block of the
/// path is missing; 30 where one is no node; 31 where there are too many; 20 for a key that no tree has; 252 for an argument that is none; 255.
#[unsafe(no_mangle)]
pub extern "C" fn tizulgech_verify(
    alloc: Global,
    blocks: &[u8],
    ends: &[usize],
    root: &[u8],
    key: &[u8],
    value: &mut [u8],
) -> u8
    requires { length value.old ≡ 36 }
    ensures answer { nat_eq result 255 ≡ false → IsVerified result value.new (cid_at root.now)
        (cut 0 ends.now blocks.now) key.now }
    ensures kept { ¬ (result ≡ 0) → value.new ≡ value.old }
{
    let Some(root) = cid_in(root) else {
        return BAD;
    };
    let blocks = match slices(alloc, blocks, ends) {
        Ok(Some(blocks)) => blocks,
        Ok(None) => return BAD,
        Err(_) => return NO_MEMORY,
    };
    verify_parts(alloc, &root, &blocks, key, value)
}

/// The same of a list of blocks.
#[tactic(auto, using(crate::proofs::Told::proof_told))]
fn verify_parts(alloc: Global, root: &Cid, blocks: &[&[u8]], key: &[u8], value: &mut [u8]) -> u8
    requires { length value.old ≡ 36 }
    ensures answer { nat_eq result 255 ≡ false → IsProof result value.new
        (verified sha256 2 root.now (map (λ block. block.now) blocks.now) key.now) }
    ensures kept { ¬ (result ≡ 0) → value.new ≡ value.old }
{
    match verify_among::<Sha256, 2, _, _>(alloc, root, blocks, key) {
        Ok(answer) => told_proof(&answer, value),
        Err(_) => NO_MEMORY,
    }
}

/// The number of an answer, with its CID.
fn told_proof(answer: &Result<Option<Cid>, ProofFault>, value: &mut [u8]) -> u8
    requires { length value.old ≡ 36 }
    ensures answer { IsProofTold result value.new answer.now }
    ensures kept { ¬ (result ≡ 0) → value.new ≡ value.old }
{
    match answer {
        Ok(Some(cid)) => {
            value.copy_from_slice(cid.as_bytes());
            DONE
        }
        Ok(None) => NONE,
        Err(ProofFault::BlockMissing) => MISSING,
        Err(ProofFault::BadNode(_)) => BAD_NODE,
        Err(ProofFault::TooDeep) => TOO_DEEP,
        Err(ProofFault::KeyLength) => 20,
    }
}
