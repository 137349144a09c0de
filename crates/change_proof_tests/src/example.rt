//! A mirror that follows a repository from root to root, as docs/AUDIT.md shows it.

use change_proofs::{are_key_changes, prove_change, verify_change_blocks};
use cid::{Cid, Sha256};
use edit::{Change, are_changes};
use repo::Core;
use repo_fixtures::batch::{ONE, Step};
use repo_fixtures::cores::{apply_steps, end};
use std::test::Fail;
use store::{LentShard, Shard, TableKey};

#[test]
fn a_mirror_follows_a_repository(rt: HostRuntime) -> Result<(), Fail> {
    let alloc = rt.alloc();

    // A host's repository has two records.
    let mut shard = Shard::new(alloc, 1000, TableKey::known());
    let opened = Core::<Sha256, 2, _>::open(alloc, &mut LentShard::new(&mut shard), 0, 1000);
    let mut core = opened.expect(&rt, "a core");
    let first = [Step::Put(b"posts/1", ONE), Step::Put(b"posts/3", ONE)];
    apply_steps(alloc, &mut shard, &mut core, 0, &first);
    let before = core.root();

    // A batch comes, by which one record comes and one goes. First the host asks what it makes of the tree, and which nodes show it.
    let put = Change {
        key: b"posts/2".as_slice(),
        value: Some(Cid::of::<Sha256>(ONE)),
    };
    let deleted = Change {
        key: b"posts/3".as_slice(),
        value: None,
    };
    let batch = [put, deleted];
    assert!(rt; are_changes(&batch));
    let proof = prove_change(alloc, &core, &batch).expect(&rt, "a proof");
    let second = [Step::Put(b"posts/2", ONE), Step::Delete(b"posts/3")];
    apply_steps(alloc, &mut shard, &mut core, 1, &second);
    assert!(rt; core.root() == proof.after);
    end(&mut shard, core);

    // A mirror knows the root before. It is told the root after, what changed, and these nodes, and does each change on them.
    let changes = proof.changes.as_slice();
    let nodes = proof.nodes.as_slice();
    assert!(rt; are_key_changes(changes));
    verify_change_blocks::<Sha256, 2, _>(alloc, before, proof.after, nodes, changes)?;

    // That a change was left out is seen.
    assert!(rt; changes.len() == 2);
    let fewer = &changes[..1];
    assert!(rt; are_key_changes(fewer));
    let shown = verify_change_blocks::<Sha256, 2, _>(alloc, before, proof.after, nodes, fewer);
    assert!(rt; shown.is_err());
    Ok(())
}
