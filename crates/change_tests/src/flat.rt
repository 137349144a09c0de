//! A node with thousands of pairs.

use crate::fixtures::{Pairs, value};
use crate::history::{History, begin};
use cid::Cid;
use cid::digests::Toy;
use edit::Change;
use std::alloc::{AllocError, Global};

/// How many pairs the node has.
const PAIRS: usize = 20_000;

/// The key of a number below 100,000 whose layer is this digit, under the toy digest with two zero bits a layer. Keys ascend
/// as their numbers do.
fn key_of(alloc: Global, number: usize, layer: u8) -> Result<Vec<u8>, AllocError> {
    let mut key = Vec::from_slice(alloc, b"k/")?;
    for unit in [10_000usize, 1_000, 100, 10, 1] {
        key.push(b'0' + (number / unit % 10) as u8)?;
    }
    key.push(b'0' + layer % 10)?;
    Ok(key)
}

/// The pairs of the odd numbers, all of layer 0.
fn pairs_of_odd(alloc: Global) -> Result<Pairs, AllocError> {
    let mut pairs = Vec::new(alloc);
    for number in 0..PAIRS {
        pairs.push((key_of(alloc, 2 * number + 1, 0)?, value(1)))?;
    }
    Ok(pairs)
}

/// Whether a batch of one change, of the key of this number and layer, leaves the tree from scratch.
fn changes(
    history: &mut History<Toy>,
    alloc: Global,
    number: usize,
    layer: u8,
    value: Option<Cid>,
) -> bool {
    let Ok(key) = key_of(alloc, number, layer) else {
        return false;
    };
    history.batch::<2>(alloc, &[Change { key: &key, value }])
}

/// Whether a put into the node, one that parts it, and the deletes of both keys leave the trees from scratch.
fn agrees(alloc: Global) -> bool {
    let Ok(pairs) = pairs_of_odd(alloc) else {
        return false;
    };
    match begin::<Toy, 2>(alloc, pairs) {
        Some(mut history) => {
            changes(&mut history, alloc, PAIRS, 0, Some(value(2)))
                && changes(&mut history, alloc, PAIRS + 10, 1, Some(value(3)))
                && changes(&mut history, alloc, PAIRS + 10, 1, None)
                && changes(&mut history, alloc, PAIRS, 0, None)
        }
        None => false,
    }
}

#[test]
fn one_node_of_twenty_thousand_pairs(rt: HostRuntime) {
    assert!(rt; agrees(rt.alloc()));
}
