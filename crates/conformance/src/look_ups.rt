//! Look-ups over whole trees, in as many reads as a key's path has nodes.

use crate::fixtures::{three_pairs, tree_of, value};
use cid::digests::Toy;
use lookups::{BlockMap, get};
use scratch::Built;
use std::alloc::Global;

/// Keys, whether the tree has them, and how many blocks are read for each.
const KEYS: [(&[u8], bool, u64); 4] = [
    (b"a/q2", true, 1),
    (b"a/p0", true, 3),
    (b"a/p1", false, 3),
    (b"a/r0", true, 3),
];

/// Whether a look-up of a key gives the value, or none, in so many reads.
fn is_looked_up(alloc: Global, tree: &Built<Toy>, key: &[u8], there: bool, reads: u64) -> bool {
    let Ok(mut map) = BlockMap::new(alloc, &tree.blocks) else {
        return false;
    };
    let wanted = if there { Some(value()) } else { None };
    get::<Toy, 2, _, _>(&mut map, tree.root, key) == wanted && map.reads() == reads
}

/// Whether this is so of each key.
fn are_looked_up(alloc: Global, tree: &Built<Toy>) -> bool {
    for (key, there, reads) in &KEYS {
        if !is_looked_up(alloc, tree, key, *there, *reads) {
            return false;
        }
    }
    true
}

#[test]
fn reads_of_a_look_up(rt: HostRuntime) {
    let tree = tree_of::<Toy, 2, _>(rt.alloc(), &three_pairs()).expect(&rt, "a tree");
    assert!(rt; are_looked_up(rt.alloc(), &tree));
}
