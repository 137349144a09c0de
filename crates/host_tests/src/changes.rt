//! Proofs of changes that a host gives, checked as a mirror does.

ghost use Rattle.std.specs.Prelude.{◌≡◌};

use crate::seated::{Alone, open_one};
use block::Block;
use change_proofs::{
    ChangeFault, ChangeProof, KeyChange, are_key_changes, verify_change_blocks,
    verify_inversion_blocks,
};
use cid::Cid;
use cid::digests::Toy;
use edit::{Change, are_changes};
use host::{Host, Writer};
use host_exports::{ProveChangeFault, ProveInversionFault, prove_change, prove_inversion};
use notices::Notice;
use repo_fixtures::batch::{EMPTY_NODE, ONE, Step, TWO, batch_at};
use std::alloc::{AllocError, Global};
use std::process::Abort;
use std::sync::{Arc, Wait};

/// The batch before the changes.
const FIRST: &[Step<'static>] = &[
    Step::Put(b"a/p0", ONE),
    Step::Put(b"a/q2", ONE),
    Step::Put(b"a/r0", ONE),
];

/// The batch of the changes.
const SECOND: &[Step<'static>] = &[
    Step::Put(b"a/r1", ONE),
    Step::Delete(b"a/p0"),
    Step::Put(b"a/q0", TWO),
    Step::Update(b"a/q2", TWO),
];

/// A change from one record to another.
fn change(
    key: &'static [u8],
    before: Option<&'static [u8]>,
    after: Option<&'static [u8]>,
) -> KeyChange<'static> {
    KeyChange {
        key,
        before: before.map(|record| Cid::of::<Toy>(record)),
        after: after.map(|record| Cid::of::<Toy>(record)),
    }
}

/// The changes of the second batch, but that `a/q2` is told with these records before and after it.
fn changes_with(before: &'static [u8], after: &'static [u8]) -> [KeyChange<'static>; 4] {
    [
        change(b"a/p0", Some(ONE), None),
        change(b"a/q0", None, Some(TWO)),
        change(b"a/q2", Some(before), Some(after)),
        change(b"a/r1", None, Some(ONE)),
    ]
}

/// The changes of the second batch.
fn changes() -> [KeyChange<'static>; 4] {
    changes_with(ONE, TWO)
}

/// The notice of a batch of these steps in repository 1.
fn told<R: Wait>(
    rt: &R,
    alloc: Global,
    writer: &mut Writer<'_, Toy, 2>,
    turn: u16,
    steps: &[Step<'_>],
) -> Option<Notice>
    ensures { writer.new.host ≡ writer.old.host }
{
    let Ok(batch) = batch_at(alloc, turn, steps) else {
        return None;
    };
    writer.apply(rt, alloc, 1, &batch.stamp, &batch.writes).ok()
}

/// The nodes by which repository `repo`, with this root, proves the second batch's changes. What are no changes is answered as
/// if there were no memory.
fn proved<R: Wait>(
    rt: &R,
    alloc: Global,
    host: &Host<Toy, 2>,
    repo: usize,
    after: Cid,
) -> Result<Vec<Arc<Block<Toy>>>, ProveInversionFault> {
    let changes = changes();
    if !are_key_changes(&changes) {
        return Err(ProveInversionFault::NoMemory);
    }
    prove_inversion(rt, alloc, host, repo, after, &changes)
}

/// Why it doesn't prove them.
fn fault_of<R: Wait>(
    rt: &R,
    alloc: Global,
    host: &Host<Toy, 2>,
    repo: usize,
    after: Cid,
) -> Option<ProveInversionFault> {
    match proved(rt, alloc, host, repo, after) {
        Ok(_) => None,
        Err(fault) => Some(fault),
    }
}

/// A root that a mirror has, and the next one that it is told.
#[derive(Drop)]
struct Roots {
    before: Cid,
    after: Cid,
}

/// What these nodes show of changes between two roots. What are no changes is answered as if there were no memory.
fn shown(
    alloc: Global,
    roots: &Roots,
    nodes: &[Arc<Block<Toy>>],
    changes: &[KeyChange<'_>],
) -> Result<(), ChangeFault> {
    if !are_key_changes(changes) {
        return Err(ChangeFault::NoMemory);
    }
    verify_inversion_blocks::<Toy, 2, _>(alloc, roots.before, roots.after, nodes, changes)
}

/// The nodes but for the one of this CID, each behind a stranger's block.
fn without(
    alloc: Global,
    nodes: &[Arc<Block<Toy>>],
    cid: Option<Cid>,
) -> Result<Vec<Arc<Block<Toy>>>, AllocError> {
    let mut others = Vec::new(alloc);
    for node in nodes {
        let stranger = Block::of(Vec::from_slice(alloc, ONE)?);
        others.push(Arc::new(alloc, stranger)?)?;
        if Some(node.cid()) != cid {
            others.push(Arc::try_clone(node)?)?;
        }
    }
    Ok(others)
}

/// Whether four nodes show the changes, and do so among blocks of strangers.
fn show(alloc: Global, roots: &Roots, nodes: &[Arc<Block<Toy>>]) -> bool {
    let Ok(more) = without(alloc, nodes, None) else {
        return false;
    };
    nodes.len() == 4
        && shown(alloc, roots, nodes, &changes()).is_ok()
        && shown(alloc, roots, &more, &changes()).is_ok()
}

/// Whether the node of this CID is told as missing where it is left out.
fn is_missed(alloc: Global, roots: &Roots, nodes: &[Arc<Block<Toy>>], cid: Cid) -> bool {
    let Ok(fewer) = without(alloc, nodes, Some(cid)) else {
        return false;
    };
    match &shown(alloc, roots, &fewer, &changes()) {
        Err(ChangeFault::BlockMissing(missing)) => *missing == cid,
        _ => false,
    }
}

/// Whether each of them is.
fn each_is_missed(alloc: Global, roots: &Roots, nodes: &[Arc<Block<Toy>>]) -> bool {
    for node in nodes {
        if !is_missed(alloc, roots, nodes, node.cid()) {
            return false;
        }
    }
    true
}

/// Whether a change that is told with another value before it leads to another root, and its place is told where the value
/// after it is another one.
fn refuse_others(alloc: Global, roots: &Roots, nodes: &[Arc<Block<Toy>>]) -> bool {
    let earlier = match &shown(alloc, roots, nodes, &changes_with(TWO, TWO)) {
        Err(ChangeFault::OtherRoot) => true,
        _ => false,
    };
    let later = match &shown(alloc, roots, nodes, &changes_with(ONE, ONE)) {
        Err(ChangeFault::OtherValue(place)) => *place == 2,
        _ => false,
    };
    earlier && later
}

/// Whether repository 1 proves the changes between two roots, with none of its nodes left out, and no others.
fn proves<R: Wait>(rt: &R, alloc: Global, host: &Host<Toy, 2>, roots: &Roots) -> bool {
    match proved(rt, alloc, host, 1, roots.after) {
        Ok(nodes) => {
            show(alloc, roots, &nodes)
                && each_is_missed(alloc, roots, &nodes)
                && refuse_others(alloc, roots, &nodes)
        }
        Err(_) => false,
    }
}

/// Whether a mirror that gets the notices of a repository's batches and its host's proof sees that the second one is right.
/// Before that batch, and in another repository, the values are other ones than those that are told, and the root is another
/// one than that after; a third repository isn't there.
fn is_right<R: Wait + Abort>(rt: &R, alloc: Global) -> bool {
    let opened = open_one::<Toy, 2, R>(rt, alloc, 2, 9);
    let Alone {
        host,
        seat,
        feed: _,
    } = opened;
    let mut writer = host.writer(seat);
    let Some(first) = told(rt, alloc, &mut writer, 0, FIRST) else {
        return false;
    };
    let early = fault_of(rt, alloc, &host, 1, first.root);
    let Some(second) = told(rt, alloc, &mut writer, 1, SECOND) else {
        return false;
    };
    let roots = Roots {
        before: first.root,
        after: second.root,
    };
    let none = Cid::of::<Toy>(EMPTY_NODE);
    early == Some(ProveInversionFault::OtherValue(0))
        && proves(rt, alloc, &host, &roots)
        && fault_of(rt, alloc, &host, 1, first.root) == Some(ProveInversionFault::OtherRoot)
        && fault_of(rt, alloc, &host, 0, none) == Some(ProveInversionFault::OtherValue(1))
        && fault_of(rt, alloc, &host, 2, none) == Some(ProveInversionFault::NoSuchRepository)
}

/// A key that gets this record, or goes.
fn gets(key: &'static [u8], record: Option<&'static [u8]>) -> Change<'static> {
    Change {
        key,
        value: record.map(|record| Cid::of::<Toy>(record)),
    }
}

/// What the second batch makes of repository `repo` with this root. What are no changes is answered as if there were no memory.
fn step_of<R: Wait>(
    rt: &R,
    alloc: Global,
    host: &Host<Toy, 2>,
    repo: usize,
    before: Cid,
) -> Result<ChangeProof<'static, Toy>, ProveChangeFault> {
    let batch = [
        gets(b"a/p0", None),
        gets(b"a/q0", Some(TWO)),
        gets(b"a/q2", Some(TWO)),
        gets(b"a/r1", Some(ONE)),
    ];
    if !are_changes(&batch) {
        return Err(ProveChangeFault::NoMemory);
    }
    prove_change(rt, alloc, host, repo, before, &batch)
}

/// Why it proves no step.
fn no_step_of<R: Wait>(
    rt: &R,
    alloc: Global,
    host: &Host<Toy, 2>,
    repo: usize,
    before: Cid,
) -> Option<ProveChangeFault> {
    match step_of(rt, alloc, host, repo, before) {
        Ok(_) => None,
        Err(fault) => Some(fault),
    }
}

/// Whether this proof shows the second batch's changes between two roots.
fn is_step(alloc: Global, proof: &ChangeProof<'_, Toy>, roots: &Roots) -> bool {
    let told = proof.changes.as_slice();
    if !are_key_changes(told) {
        return false;
    }
    let Roots { before, after } = *roots;
    proof.after == after
        && told.len() == 4
        && verify_change_blocks::<Toy, 2, _>(alloc, before, after, &proof.nodes, told).is_ok()
}

/// Whether a host proves what a batch makes of a repository before it comes, and no more once it has come.
fn is_foreseen<R: Wait + Abort>(rt: &R, alloc: Global) -> bool {
    let opened = open_one::<Toy, 2, R>(rt, alloc, 2, 9);
    let Alone {
        host,
        seat,
        feed: _,
    } = opened;
    let mut writer = host.writer(seat);
    let Some(first) = told(rt, alloc, &mut writer, 0, FIRST) else {
        return false;
    };
    let step = step_of(rt, alloc, &host, 1, first.root);
    let Some(second) = told(rt, alloc, &mut writer, 1, SECOND) else {
        return false;
    };
    let Ok(step) = step else {
        return false;
    };
    let roots = Roots {
        before: first.root,
        after: second.root,
    };
    is_step(alloc, &step, &roots)
        && no_step_of(rt, alloc, &host, 1, first.root) == Some(ProveChangeFault::OtherRoot)
        && no_step_of(rt, alloc, &host, 2, first.root) == Some(ProveChangeFault::NoSuchRepository)
}

#[test]
fn a_host_proves_an_inversion(rt: HostRuntime) {
    assert!(rt; is_right(&rt, rt.alloc()));
}

#[test]
fn a_host_proves_a_step(rt: HostRuntime) {
    assert!(rt; is_foreseen(&rt, rt.alloc()));
}
