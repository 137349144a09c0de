//! The parts of an answer, put behind one another.

ghost use Rattle.std.specs.Prelude.{◌≡◌, ◌++◌, OnOk};
ghost use Rattle.buffers.specs.Answers.{block_bytes, cids_bytes, number_bytes, pair_bytes, part_bytes, value_bytes, values_bytes};

use block::Block;
use cid::{Cid, Digest};
use std::alloc::AllocError;

/// Puts a number at the end: eight bytes, the lowest first.
pub fn push_number(out: &mut Vec<u8>, number: u64) -> Result<(), AllocError>
    ensures { OnOk result (out.new.items ≡ out.old.items ++ number_bytes number) }
{
    out.extend_from_slice(&number.to_le_bytes())
}

/// Puts bytes at the end, with their length in front.
pub fn push_part(out: &mut Vec<u8>, part: &[u8]) -> Result<(), AllocError>
    ensures { OnOk result (out.new.items ≡ out.old.items ++ part_bytes part.now) }
{
    push_number(out, part.len() as u64)?;
    out.extend_from_slice(part)
}

/// Puts a key and a CID at the end.
pub fn push_pair(out: &mut Vec<u8>, key: &[u8], value: &Cid) -> Result<(), AllocError>
    ensures { OnOk result (out.new.items ≡ out.old.items ++ pair_bytes (key.now, value.now)) }
{
    push_part(out, key)?;
    out.extend_from_slice(value.as_bytes())
}

/// Puts a CID at the end, or 36 zeros where there is none.
pub fn push_value(out: &mut Vec<u8>, value: Option<Cid>) -> Result<(), AllocError>
    ensures { OnOk result (out.new.items ≡ out.old.items ++ value_bytes value) }
{
    match value {
        Some(cid) => out.extend_from_slice(cid.as_bytes()),
        None => out.extend_from_slice(&[0; 36]),
    }
}

/// Puts CIDs at the end, one after another.
#[tactic(auto, using(crate::proofs::Behind::spelt_next))]
pub fn push_cids(out: &mut Vec<u8>, cids: &[Cid]) -> Result<(), AllocError>
    ensures { OnOk result (out.new.items ≡ out.old.items ++ cids_bytes cids.now) }
{
    for cid in cids {
        out.extend_from_slice(cid.as_bytes())?;
    }
    Ok(())
}

/// Puts CIDs at the end, one after another, and 36 zeros where there is none.
#[tactic(auto, using(crate::proofs::Behind::spelt_next))]
pub fn push_values(out: &mut Vec<u8>, values: &[Option<Cid>]) -> Result<(), AllocError>
    ensures { OnOk result (out.new.items ≡ out.old.items ++ values_bytes values.now) }
{
    for value in values {
        push_value(out, *value)?;
    }
    Ok(())
}

/// Puts a block at the end, with its CID and its length in front.
pub fn push_block<D: Digest>(out: &mut Vec<u8>, block: &Block<D>) -> Result<(), AllocError>
    ensures { OnOk result (out.new.items ≡ out.old.items ++ block_bytes D.digest_of block.now) }
{
    out.extend_from_slice(block.cid().as_bytes())?;
    push_part(out, block.bytes())
}
