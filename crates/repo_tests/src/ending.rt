//! The end of a core in sixteen shards that its caller has for itself.

use crate::opened::opened;
use crate::stores::Heap;
use cid::digests::Toy;
use refusing::Refusing;
use repo::Core;
use repo_fixtures::cores::counts;
use store::{LentShards, Shards, TableKey};

/// It takes no memory. The node without entries stands in the last shard.
#[test]
fn ends_in_its_shards(rt: HostRuntime) {
    let heap = Refusing::new(rt.alloc());
    let shards: Shards<Toy, &Heap> = Shards::open(&heap, 9, TableKey::known());
    let mut tables = shards.tables();
    let core: Core<Toy, 2, &Heap> = opened(&rt, &heap, &mut tables[15], 0);
    let stood = counts(&tables[15]) == (1, 1);
    let refused = heap.refused();
    heap.refuse_from(1);
    core.end(&mut LentShards::<Toy, 0, &Heap>::new(&mut tables));
    let is_empty = heap.refused() == refused && counts(&tables[15]) == (0, 0);
    drop(tables);
    assert!(rt; stood && is_empty && heap.live() == 0);
}
