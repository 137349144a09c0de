//! What is said of changes that are not shown, and of those that are not proved.
use crate::sentences::explained::is_explained;
use change_proofs::{ChangeFault, ProvingFault};
use cid::{Cid, Sha256};
use repository_commands::TextFault;

/// The name under which `explain` has a fault of a change, how the fault is named where a CID stands behind it, what it says,
/// and what `explain` does.
#[test]
fn faults_of_a_change(rt: HostRuntime) {
    let cid = Cid::of::<Sha256>(b"\xa2ae\x80al\xf6");
    let rows = [
        (
            ChangeFault::BlockMissing(cid),
            "BlockMissing",
            "BlockMissing(bafyreie5737gdxlw5i64vzichcalba3z2v5n6icifvx5xytvske7mr3hpm)",
            "a block that is needed is not given: bafyreie5737gdxlw5i64vzichcalba3z2v5n6icifvx5xytvske7mr3hpm",
            "a block that is needed is not given",
        ),
        (
            ChangeFault::BadNode(cid),
            "BadNode",
            "BadNode(bafyreie5737gdxlw5i64vzichcalba3z2v5n6icifvx5xytvske7mr3hpm)",
            "a block that is needed is no node: bafyreie5737gdxlw5i64vzichcalba3z2v5n6icifvx5xytvske7mr3hpm",
            "a block that is needed is no node",
        ),
        (
            ChangeFault::TooDeep,
            "TooDeep",
            "TooDeep",
            "a link stands below layer 0",
            "a link stands below layer 0",
        ),
        (
            ChangeFault::NotTree,
            "NotTree",
            "NotTree",
            "the blocks are no tree with the root that they are read from",
            "the blocks are no tree with the root that they are read from",
        ),
        (
            ChangeFault::OtherValue(7),
            "OtherValue",
            "OtherValue",
            "the key of change 7 has another value",
            "the key of the change has another value",
        ),
        (
            ChangeFault::OtherRoot,
            "OtherRoot",
            "OtherRoot",
            "the changes lead to another root",
            "the changes lead to another root",
        ),
        (
            ChangeFault::NoMemory,
            "NoMemory",
            "NoMemory",
            "out of memory",
            "out of memory",
        ),
    ];
    for (fault, name, with_cid, sentence, meaning) in &rows {
        let text: TextFault<Sha256> = TextFault::Change(*fault);
        let told = format!(in rt.alloc(); "{fault}").expect(&rt, "memory");
        let named = format!(in rt.alloc(); "{text}").expect(&rt, "memory");
        assert!(rt;
            told.as_str() == *sentence && named.as_str() == *with_cid,
            "{named}: {told}"
        );
        assert!(rt; is_explained(*name, *meaning), "{named}");
    }
}

#[test]
fn faults_of_changes_that_are_not_proved(rt: HostRuntime) {
    let rows = [
        (
            ProvingFault::OtherValue(7),
            "the key of change 7 has another value",
        ),
        (ProvingFault::NoMemory, "out of memory"),
    ];
    for (fault, sentence) in &rows {
        let told = format!(in rt.alloc(); "{fault}").expect(&rt, "memory");
        assert!(rt; told.as_str() == *sentence, "{told}");
    }
}
