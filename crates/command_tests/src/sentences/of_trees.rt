//! What is said of CIDs, of nodes, of proofs of a key and of edits.
use crate::sentences::explained::is_explained;
use cid::{Cid, CidFault, Sha256};
use edit::EditFault;
use export::ProofFault;
use node::NodeFault;
use repository_commands::TextFault;

#[test]
fn faults_of_a_cid(rt: HostRuntime) {
    let rows = [
        (CidFault::BadLength, "BadLength", "a CID has 59 characters"),
        (
            CidFault::BadPrefix,
            "BadPrefix",
            "a CID begins with the letter b, for base32 in lower case",
        ),
        (
            CidFault::BadLetter,
            "BadLetter",
            "a CID has only the letters a to z and the digits 2 to 7",
        ),
        (
            CidFault::BadBits,
            "BadBits",
            "the last letter of a CID stands for bits that belong to no byte",
        ),
        (
            CidFault::NotThisProfile,
            "NotThisProfile",
            "the CID isn't of version 1 with codec dag-cbor and hash SHA-256",
        ),
    ];
    for (fault, name, sentence) in &rows {
        let root: TextFault<Sha256> = TextFault::Root(*fault);
        let told = format!(in rt.alloc(); "{fault}").expect(&rt, "memory");
        let named = format!(in rt.alloc(); "{root}").expect(&rt, "memory");
        assert!(rt;
            told.as_str() == *sentence && named.as_str() == *name,
            "{named}: {told}"
        );
        assert!(rt; is_explained(*name, *sentence), "{named}");
    }
}

#[test]
fn faults_of_a_node(rt: HostRuntime) {
    let rows = [
        (
            NodeFault::NotNode,
            "BadNode(NotNode)",
            "the bytes are not those of a node",
            "a block of the path is no node: the bytes are not those of a node",
        ),
        (
            NodeFault::BadPrefix,
            "BadNode(BadPrefix)",
            "a prefix is not what a key has in common with the one before",
            "a block of the path is no node: a prefix is not what a key has in common with the one before",
        ),
        (
            NodeFault::KeyOrder,
            "BadNode(KeyOrder)",
            "the keys do not ascend",
            "a block of the path is no node: the keys do not ascend",
        ),
        (
            NodeFault::KeyLength,
            "BadNode(KeyLength)",
            "a key has no bytes or more than 1,024",
            "a block of the path is no node: a key has no bytes or more than 1,024",
        ),
    ];
    for (fault, name, sentence, of_path) in &rows {
        let path = ProofFault::BadNode(*fault);
        let text: TextFault<Sha256> = TextFault::Proof(path);
        let told = format!(in rt.alloc(); "{fault}").expect(&rt, "memory");
        let path = format!(in rt.alloc(); "{path}").expect(&rt, "memory");
        let named = format!(in rt.alloc(); "{text}").expect(&rt, "memory");
        assert!(rt;
            told.as_str() == *sentence && named.as_str() == *name,
            "{named}: {told}"
        );
        assert!(rt; path.as_str() == *of_path, "{path}");
        assert!(rt; is_explained(*name, *sentence), "{named}");
    }
}

#[test]
fn faults_of_a_proof(rt: HostRuntime) {
    let rows = [
        (
            ProofFault::BlockMissing,
            "BlockMissing",
            "a block of the path is missing",
            "a block that is needed is not given",
        ),
        (
            ProofFault::TooDeep,
            "TooDeep",
            "the path is longer than any tree is deep",
            "a link stands below layer 0",
        ),
        (
            ProofFault::KeyLength,
            "KeyLength",
            "a key has no bytes or more than 1,024",
            "a key has no bytes or more than 1,024",
        ),
    ];
    for (fault, name, sentence, meaning) in &rows {
        let text: TextFault<Sha256> = TextFault::Proof(*fault);
        let told = format!(in rt.alloc(); "{fault}").expect(&rt, "memory");
        let named = format!(in rt.alloc(); "{text}").expect(&rt, "memory");
        assert!(rt;
            told.as_str() == *sentence && named.as_str() == *name,
            "{named}: {told}"
        );
        assert!(rt; is_explained(*name, *meaning), "{named}");
    }
}

#[test]
fn faults_of_an_edit(rt: HostRuntime) {
    let cid = Cid::of::<Sha256>(b"\xa2ae\x80al\xf6");
    let rows: [(EditFault<Sha256>, &'static str); 6] = [
        (
            EditFault::Missing(cid),
            "the source lacks a block of the tree",
        ),
        (EditFault::BadNode(cid), "a block of the source is no node"),
        (EditFault::TooDeep, "the source has a link below layer 0"),
        (EditFault::NotTree, "the source has no tree with this root"),
        (EditFault::NoSuchKey, "the tree does not have the key"),
        (EditFault::NoMemory, "out of memory"),
    ];
    for (fault, sentence) in &rows {
        let told = format!(in rt.alloc(); "{fault}").expect(&rt, "memory");
        assert!(rt; told.as_str() == *sentence, "{told}");
    }
}
