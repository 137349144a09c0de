use block::Block;
use cid::Sha256;
use std::alloc::{AllocError, Global};
use std::sync::Arc;
use store::{Hold, Shard, StoreFault, TableKey};

/// Acquires and releases this many blocks, so many times, and counts the holds.
pub fn measure(alloc: Global, count: u32, rounds: u32) -> Result<u64, StoreFault<Sha256>> {
    let blocks = blocks(alloc, count)?;
    let mut shard = Shard::new(alloc, 1_048_576, TableKey::known());
    let mut acquired = 0u64;
    for _ in 0..rounds {
        acquired = acquired.saturating_add(round(alloc, &mut shard, &blocks)?);
    }
    Ok(acquired)
}

/// Blocks of 128 bytes, no two alike.
fn blocks(alloc: Global, count: u32) -> Result<Vec<Arc<Block<Sha256>>>, AllocError> {
    let mut blocks = Vec::new(alloc);
    for number in 0..count {
        blocks.push(block(alloc, number)?)?;
    }
    Ok(blocks)
}

/// The block with this number.
fn block(alloc: Global, number: u32) -> Result<Arc<Block<Sha256>>, AllocError> {
    let mut bytes = [0; 128];
    bytes[..4].copy_from_slice(&number.to_le_bytes());
    let bytes = Vec::from_slice(alloc, &bytes)?;
    let block = Arc::new(alloc, Block::of(bytes))?;
    Ok(block)
}

/// Acquires all blocks, releases them, and counts the holds.
fn round(
    alloc: Global,
    shard: &mut Shard<Sha256>,
    blocks: &[Arc<Block<Sha256>>],
) -> Result<u64, StoreFault<Sha256>> {
    let mut holds = Vec::new(alloc);
    let outcome = acquire_all(shard, blocks, &mut holds);
    let acquired = holds.len() as u64;
    release_all(shard, holds);
    outcome?;
    Ok(acquired)
}

fn acquire_all(
    shard: &mut Shard<Sha256>,
    blocks: &[Arc<Block<Sha256>>],
    holds: &mut Vec<Hold<Sha256>>,
) -> Result<(), StoreFault<Sha256>> {
    for block in blocks {
        holds.reserve(1)?;
        let hold = shard.acquire(0, Arc::try_clone(block)?)?;
        holds.push_reserved(hold);
    }
    Ok(())
}

fn release_all(shard: &mut Shard<Sha256>, mut holds: Vec<Hold<Sha256>>) {
    while let Some(hold) = holds.pop() {
        shard.release(hold);
    }
    holds.destroy_empty();
}
